ghost use Rattle.std.specs.Prelude.{◌≡◌, false, Some};

// the order at position 1 of a side: its price, where it has one, and its size
#[derive(Clone, Copy, Debug, PartialEq, Eq)]
pub struct Top {
    pub price: Option<i64>,
    pub size: u64,
}

// what is told of a side: its first order, how many orders it has, and their sizes together
#[derive(Clone, Copy, Debug, PartialEq, Eq)]
pub struct SideFigures {
    pub top: Option<Top>,
    pub orders: usize,
    pub total: u128,
}

// what is told of a book
#[derive(Clone, Copy, Debug, PartialEq, Eq)]
pub struct Figures {
    pub bid: SideFigures,
    pub offer: SideFigures,
}

impl Figures {
    // Whether a book with these figures is told otherwise than before.
    pub fn is_new(&self, told: Option<Figures>) -> bool
        ensures new { told ≡ Some self.now → result ≡ false }
        ensures same { result ≡ false → told ≡ Some self.now }
    {
        told != Some(*self)
    }
}
