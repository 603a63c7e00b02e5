ghost use Rattle.std.specs.Prelude.{◌≡◌};

use crate::width::Width;
use std::fmt;

// what a template's messages are
#[derive(Clone, Copy, Debug, PartialEq, Eq)]
pub enum Kind {
    Order,
    Delete,
    Mass,
    Empty,
    Stat,
    Header,
    Entries,
}

// The kind's word in a sheet.
impl fmt::Display for Kind {
    fn fmt<W: fmt::Write>(&self, f: &mut fmt::Formatter<W>) -> fmt::Result {
        f.pad(match self {
            Kind::Order => "order",
            Kind::Delete => "delete",
            Kind::Mass => "mass",
            Kind::Empty => "empty",
            Kind::Stat => "stat",
            Kind::Header => "header",
            Kind::Entries => "entries",
        })
    }
}

// where a field lies: its offset in the block or entry, and its width
#[derive(Clone, Copy)]
pub struct Spot {
    pub offset: u16,
    pub width: Width,
}

// a new or changed order
#[derive(Clone, Copy)]
pub struct OrderLayout {
    pub security: Spot,
    pub action: Spot,
    pub side: Spot,
    pub position: Spot,
    pub price: Spot,
    pub size: Spot,
    pub oid: Spot,
    pub firm: Spot,
}

// one order taken away
#[derive(Clone, Copy)]
pub struct DeleteLayout {
    pub security: Spot,
    pub side: Spot,
    pub position: Spot,
}

// orders taken away from the top or the bottom of a side
#[derive(Clone, Copy)]
pub struct MassLayout {
    pub security: Spot,
    pub action: Spot,
    pub side: Spot,
    pub position: Spot,
}

// both sides cleared
#[derive(Clone, Copy)]
pub struct EmptyLayout {
    pub security: Spot,
}

// a statistic's latest number
#[derive(Clone, Copy)]
pub struct StatLayout {
    pub security: Spot,
    pub value: Spot,
}

// the header of an instrument's snapshot
#[derive(Clone, Copy)]
pub struct HeaderLayout {
    pub security: Spot,
    pub last: Spot,
    pub bids: Spot,
    pub offers: Spot,
    pub stats: Spot,
}

// orders of a snapshot: the instrument in the root block, and behind it a group of entries; `count` is the width of the
// group's count, and the other fields lie in each entry
#[derive(Clone, Copy)]
pub struct EntriesLayout {
    pub security: Spot,
    pub count: Width,
    pub side: Spot,
    pub position: Spot,
    pub price: Spot,
    pub size: Spot,
    pub oid: Spot,
    pub firm: Spot,
}

// what a template's messages say, and where
#[derive(Clone, Copy)]
pub enum Layout {
    Order(OrderLayout),
    Delete(DeleteLayout),
    Mass(MassLayout),
    Empty(EmptyLayout),
    Stat(StatLayout),
    Header(HeaderLayout),
    Entries(EntriesLayout),
}

impl Layout {
    ghost use Rattle.layout.specs.Kinds.{kind_of};
    ghost use Rattle.layout.specs.Lawful.{is_stat};

    // What the messages are.
    pub fn kind(&self) -> Kind
        ensures { result ≡ kind_of self.now }
    {
        match self {
            Layout::Order(_) => Kind::Order,
            Layout::Delete(_) => Kind::Delete,
            Layout::Mass(_) => Kind::Mass,
            Layout::Empty(_) => Kind::Empty,
            Layout::Stat(_) => Kind::Stat,
            Layout::Header(_) => Kind::Header,
            Layout::Entries(_) => Kind::Entries,
        }
    }

    // Whether the messages are statistics.
    pub fn is_stat(&self) -> bool
        ensures { result ≡ is_stat self.now }
    {
        matches!(self, Layout::Stat(_))
    }
}

// the numbers of the four actions
#[derive(Clone, Copy)]
pub struct Actions {
    pub new: u8,
    pub change: u8,
    pub topcut: u8,
    pub bottomcut: u8,
}
