ghost use Rattle.std.specs.Prelude.{◌≡◌};
ghost use Rattle.orders.specs.Side.{side_numbered};

use store::fault::StoreFault;

// a side of a book
#[derive(Clone, Copy, Debug, PartialEq, Eq)]
pub enum Side {
    Bid,
    Offer,
}

// A side is written as the digit 0, for bids, or 1, for offers; what is of no side does not fit.
impl TryFrom<u64> for Side {
    type Error = StoreFault;

    ghost try_from_gives = { λ n r. r ≡ side_numbered n };

    fn try_from(number: u64) -> Result<Side, StoreFault> {
        match number {
            48 => Ok(Side::Bid),
            49 => Ok(Side::Offer),
            _ => Err(StoreFault::Unfit),
        }
    }
}
