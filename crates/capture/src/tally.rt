use crate::fault::CaptureFault;

// how many records of each sort were read, and the fault that ended the file
#[derive(Clone, Copy, Debug, Default, PartialEq, Eq)]
pub struct Tally {
    pub datagrams: u64,
    pub cut: u64,
    pub fragments: u64,
    pub other: u64,
    pub fault: Option<CaptureFault>,
}
