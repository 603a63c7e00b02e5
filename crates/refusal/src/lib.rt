#![tactic(auto)]

ghost use Rattle.std.specs.Prelude.{◌≡◌};
ghost use Rattle.refusal.specs.Reasons.{number_of, Decodes};
ghost use Rattle.refusal.specs.Words.{word_of, layer_word};

use std::error::Error;
use std::fmt;

// which part of the receiver refuses
#[derive(Clone, Copy, Debug, PartialEq, Eq)]
pub enum Layer {
    Frame,
    Stream,
    Store,
    Sheet,
}

// why a call is refused, by number from 1 on
#[derive(Clone, Copy, Debug, PartialEq, Eq)]
pub enum Reason {
    Size,
    Empty,
    Torn,
    Length,
    Encoding,
    Schema,
    Block,
    Group,
    Channel,
    Version,
    Number,
    Late,
    Join,
    Shelf,
    Instrument,
    Opening,
    Sheet,
    Slot,
    Unfit,
    Owed,
}

// a number that no reason has
#[derive(Clone, Copy, Debug, PartialEq, Eq)]
pub struct UnknownReason(pub u8);

// what a refused call gives: the reason, the layer that refuses, and the place
#[derive(Clone, Copy, Debug, PartialEq, Eq)]
pub struct Refusal {
    pub reason: Reason,
    pub layer: Layer,
    pub place: usize,
}

impl Layer {
    // The layer's name.
    pub fn word(&self) -> &'static str
        ensures { result.now ≡ layer_word self.now }
    {
        match self {
            Layer::Frame => "frame",
            Layer::Stream => "stream",
            Layer::Store => "store",
            Layer::Sheet => "sheet",
        }
    }
}

impl Reason {
    // All reasons, by their numbers.
    pub const ALL: [Reason; 20] = [
        Reason::Size,
        Reason::Empty,
        Reason::Torn,
        Reason::Length,
        Reason::Encoding,
        Reason::Schema,
        Reason::Block,
        Reason::Group,
        Reason::Channel,
        Reason::Version,
        Reason::Number,
        Reason::Late,
        Reason::Join,
        Reason::Shelf,
        Reason::Instrument,
        Reason::Opening,
        Reason::Sheet,
        Reason::Slot,
        Reason::Unfit,
        Reason::Owed,
    ];

    // The reason's number, 1 to 20.
    pub fn number(self) -> u8
        ensures { result ≡ number_of self }
    {
        match self {
            Reason::Size => 1,
            Reason::Empty => 2,
            Reason::Torn => 3,
            Reason::Length => 4,
            Reason::Encoding => 5,
            Reason::Schema => 6,
            Reason::Block => 7,
            Reason::Group => 8,
            Reason::Channel => 9,
            Reason::Version => 10,
            Reason::Number => 11,
            Reason::Late => 12,
            Reason::Join => 13,
            Reason::Shelf => 14,
            Reason::Instrument => 15,
            Reason::Opening => 16,
            Reason::Sheet => 17,
            Reason::Slot => 18,
            Reason::Unfit => 19,
            Reason::Owed => 20,
        }
    }

    // The reason's word.
    pub fn word(&self) -> &'static str
        ensures { result.now ≡ word_of (number_of self.now) }
    {
        match self {
            Reason::Size => "size",
            Reason::Empty => "empty",
            Reason::Torn => "torn",
            Reason::Length => "length",
            Reason::Encoding => "encoding",
            Reason::Schema => "schema",
            Reason::Block => "block",
            Reason::Group => "group",
            Reason::Channel => "channel",
            Reason::Version => "version",
            Reason::Number => "number",
            Reason::Late => "late",
            Reason::Join => "join",
            Reason::Shelf => "shelf",
            Reason::Instrument => "instrument",
            Reason::Opening => "opening",
            Reason::Sheet => "sheet",
            Reason::Slot => "slot",
            Reason::Unfit => "unfit",
            Reason::Owed => "owed",
        }
    }
}

// The reason with a number.
impl TryFrom<u8> for Reason {
    type Error = UnknownReason;

    ghost try_from_gives = { Decodes };

    fn try_from(number: u8) -> Result<Self, UnknownReason> {
        match number {
            1..=20 => Ok(Reason::ALL[usize::from(number) - 1]),
            _ => Err(UnknownReason(number)),
        }
    }
}

impl Refusal {
    // The word of the refusal's reason.
    pub fn word(&self) -> &'static str
        ensures { result.now ≡ word_of (number_of self.now.reason) }
    {
        self.reason.word()
    }
}

impl fmt::Display for Layer {
    fn fmt<W: fmt::Write>(&self, f: &mut fmt::Formatter<W>) -> fmt::Result {
        f.pad(self.word())
    }
}

impl fmt::Display for Reason {
    fn fmt<W: fmt::Write>(&self, f: &mut fmt::Formatter<W>) -> fmt::Result {
        f.pad(self.word())
    }
}

// `NUMBER WORD LAYER PLACE`
impl fmt::Display for Refusal {
    fn fmt<W: fmt::Write>(&self, f: &mut fmt::Formatter<W>) -> fmt::Result {
        let number = self.reason.number();
        let reason = self.reason;
        let layer = self.layer;
        let place = self.place;
        write!(f, "{number} {reason} {layer} {place}")
    }
}

impl fmt::Display for UnknownReason {
    fn fmt<W: fmt::Write>(&self, f: &mut fmt::Formatter<W>) -> fmt::Result {
        write!(f, "no refusal has the number {}", self.0)
    }
}

impl Error for UnknownReason {}
