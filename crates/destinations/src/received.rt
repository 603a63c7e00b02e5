use crate::refusals::Refusals;

// what became of the packets of one destination: how many were taken and repeated, and what was refused
#[derive(Clone, Copy)]
pub struct Received {
    pub taken: u64,
    pub repeated: u64,
    pub refusals: Refusals<20>,
}
