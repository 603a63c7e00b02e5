// the numbers from `low` to `high`, both among them
#[derive(Clone, Copy)]
pub struct Span {
    pub low: u32,
    pub high: u32,
}
