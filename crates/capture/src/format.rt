use crate::order::ByteOrder;

// what the fraction of a second is counted in
#[derive(Clone, Copy, Debug, PartialEq, Eq)]
pub enum Precision {
    Micro,
    Nano,
}

// what a record's bytes begin with
#[derive(Clone, Copy, Debug, PartialEq, Eq)]
pub enum Link {
    Ethernet,
    RawIp,
}

// what the file header says of the records
#[derive(Clone, Copy, Debug, PartialEq, Eq)]
pub struct Format {
    pub order: ByteOrder,
    pub precision: Precision,
    pub link: Link,
}
