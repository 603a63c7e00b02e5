// how many orders of each side are owed to the staged book
#[derive(Clone, Copy, Debug, PartialEq, Eq)]
pub struct Due {
    pub bids: usize,
    pub offers: usize,
}
