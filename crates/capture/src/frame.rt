use crate::endpoint::Endpoint;

// a whole UDP datagram, with its time in nanoseconds since the epoch and where it was sent to
#[derive(Clone, Copy, Debug, PartialEq, Eq)]
pub struct Datagram<'a> {
    pub time: u64,
    pub to: Endpoint,
    pub payload: &'a [u8],
}

// what a record holds
#[derive(Clone, Copy, Debug, PartialEq, Eq)]
pub enum Frame<'a> {
    Datagram(Datagram<'a>),
    Cut,
    Fragment,
    NoUdp,
}
