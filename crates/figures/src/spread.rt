ghost use Rattle.std.specs.Prelude.{◌≡◌};
ghost use Rattle.figures.specs.Spread.{price_of, spread_of};

use crate::figures::{Figures, SideFigures};

impl SideFigures {
    // The price of the first order, where there is one.
    pub fn price(&self) -> Option<i64>
        ensures { result ≡ price_of self.now.top }
    {
        self.top?.price
    }
}

impl Figures {
    // How far the first offer is above the first bid, where both have a price; it may have 65 bits.
    pub fn spread(&self) -> Option<i128>
        ensures { result ≡ spread_of (price_of self.now.bid.top) (price_of self.now.offer.top) }
    {
        let bid = self.bid.price()?;
        let offer = self.offer.price()?;
        Some(i128::from(offer) - i128::from(bid))
    }
}
