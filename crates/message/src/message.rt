ghost use Rattle.std.specs.Prelude.{◌≡◌};

use layout::kinds::{
    DeleteLayout, EmptyLayout, EntriesLayout, HeaderLayout, Kind, MassLayout, OrderLayout,
    StatLayout,
};

// a message by kind: where its fields lie, and its part of the packet, header included; `Other` where the sheet does not
// list its template. Nothing is promised of the part: whoever reads a field tests that it is there
#[derive(Clone, Copy)]
pub enum Message<'a, 's> {
    Order(&'s OrderLayout, &'a [u8]),
    Delete(&'s DeleteLayout, &'a [u8]),
    Mass(&'s MassLayout, &'a [u8]),
    Empty(&'s EmptyLayout, &'a [u8]),
    Stat(&'s StatLayout, &'a [u8]),
    Header(&'s HeaderLayout, &'a [u8]),
    Entries(&'s EntriesLayout, &'a [u8]),
    Other(&'a [u8]),
}

impl<'a, 's> Message<'a, 's> {
    ghost use Rattle.std.specs.Option.{option_map};
    ghost use Rattle.layout.specs.Kinds.{kind_of};
    ghost use Rattle.message.specs.Views.{view};

    // What the message is, where the sheet lists its template.
    pub fn kind(&self) -> Option<Kind>
        ensures { result ≡ option_map kind_of (view self.now).layout }
    {
        match self {
            Message::Order(_, _) => Some(Kind::Order),
            Message::Delete(_, _) => Some(Kind::Delete),
            Message::Mass(_, _) => Some(Kind::Mass),
            Message::Empty(_, _) => Some(Kind::Empty),
            Message::Stat(_, _) => Some(Kind::Stat),
            Message::Header(_, _) => Some(Kind::Header),
            Message::Entries(_, _) => Some(Kind::Entries),
            Message::Other(_) => None,
        }
    }
}

// a piece of a snapshot: one entry of an `entries` message (the entry's bytes), or one `stat` message (its part of the packet)
#[derive(Clone, Copy)]
pub enum Piece<'a, 's> {
    Entry(&'s EntriesLayout, &'a [u8]),
    Stat(&'s StatLayout, &'a [u8]),
}
