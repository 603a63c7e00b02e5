// how far the book of an instrument has come: nowhere that is known, or up to this packet
// kept: an event and the state of a book are matched side by side, and stale and as of are the words of the guarantee
#[derive(Clone, Copy, Debug, PartialEq, Eq)]
pub enum Mark {
    Stale,
    AsOf(u64),
}

// the snapshot loop that is followed: its number, and the number of its latest packet
#[derive(Clone, Copy, Debug, PartialEq, Eq)]
pub struct Followed {
    pub loop_number: u16,
    pub last: u32,
}

// a snapshot group: its instrument, and the last packet that its header names
#[derive(Clone, Copy, Debug, PartialEq, Eq)]
pub struct Group {
    pub security: u64,
    pub last: u64,
}
