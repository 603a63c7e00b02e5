// what a packet's header says
#[derive(Clone, Copy, Debug, PartialEq, Eq)]
pub struct PacketHead {
    pub channel: u8,
    pub version: u16,
    pub number: u32,
}

// what a message's header says of its length, its root block and its template
#[derive(Clone, Copy)]
pub struct MessageHead {
    pub length: usize,
    pub block: u16,
    pub template: u16,
}
