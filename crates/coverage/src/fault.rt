// a slot that has no band
#[derive(Clone, Copy, Debug, PartialEq, Eq)]
pub struct NoBand {
    pub slot: usize,
}
