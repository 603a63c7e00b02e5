use crate::numbers::Numbers;

// the figures of one stream of packets: which numbers came, how many packets, how many of them repeated or out of order
#[derive(Drop)]
pub struct Stream {
    pub(crate) numbers: Numbers,
    pub(crate) packets: u64,
    pub(crate) repeated: u64,
    pub(crate) late: u64,
}
