// an order of a book; a price of -2^63 is no price
#[derive(Clone, Copy, Debug, Default, PartialEq, Eq)]
pub struct Order {
    pub price: i64,
    pub size: u64,
    pub oid: u64,
    pub firm: u64,
}

// a new or changed order, with its place
#[derive(Clone, Copy)]
pub struct OrderFields {
    pub action: u64,
    pub side: u64,
    pub position: u64,
    pub order: Order,
}

// a place of a side, from 1
#[derive(Clone, Copy)]
pub struct DeleteFields {
    pub side: u64,
    pub position: u64,
}

// a cut of a side, and the place up to or from which it goes
#[derive(Clone, Copy)]
pub struct MassFields {
    pub action: u64,
    pub side: u64,
    pub position: u64,
}

// the latest number of the statistic that a template stands for
#[derive(Clone, Copy)]
pub struct StatFields {
    pub template: u64,
    pub value: i64,
}

// a snapshot's header: the last incremental packet that it has seen, and how many pieces are to come
#[derive(Clone, Copy)]
pub struct HeaderFields {
    pub last: u64,
    pub bids: u64,
    pub offers: u64,
    pub stats: u64,
}

// one entry of a snapshot: an order with its place
#[derive(Clone, Copy)]
pub struct EntryFields {
    pub side: u64,
    pub position: u64,
    pub order: Order,
}
