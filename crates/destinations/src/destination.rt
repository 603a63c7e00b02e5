use crate::counts::Counts;
use capture::endpoint::Endpoint;
use numbering::stream::Stream;

// the packets of one channel and version; `first` is the record, counted from 1, in which the first of them came
#[derive(Drop)]
pub struct Flow {
    pub channel: u8,
    pub version: u16,
    pub first: u64,
    pub stream: Stream,
}

// what was sent to one address and port; `last` is the place of the flow that came last
#[derive(Drop)]
pub struct Destination {
    pub to: Endpoint,
    pub packets: u64,
    pub flows: Vec<Flow>,
    pub last: usize,
    pub counts: Counts,
}
