// why a store refuses: its opening, a slot that it has not, what does not fit, or pieces that are still owed
#[derive(Clone, Copy, Debug, PartialEq, Eq)]
pub enum StoreFault {
    Opening,
    Slot(usize),
    Unfit,
    Owed,
}
