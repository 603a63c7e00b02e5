ghost use Rattle.std.specs.Prelude.{◌≡◌, ◌+◌, ◌*◌, ◌<◌, if◌then◌else◌, Some, None};
ghost use Rattle.orders.specs.Book.{is_side, on_side};
ghost use Rattle.orders.specs.Shown.{of_side};

use crate::side::Side;

// The row of a side of a book.
pub(crate) fn row_at(book: usize, side: Side) -> usize
    requires { book < 65 }
    ensures { result ≡ of_side side (2 * book) (2 * book + 1) }
{
    match side {
        Side::Bid => 2 * book,
        Side::Offer => 2 * book + 1,
    }
}

// The row of the side that a number is written for. The side is reckoned with and not branched on, since sides come in no order.
pub(crate) fn row_of(book: usize, side: u64) -> Option<usize>
    requires { book < 65 }
    ensures { result ≡ (if is_side side then Some (on_side side (2 * book) (2 * book + 1)) else None) }
{
    if side < 48 || side > 49 {
        return None;
    }
    Some(2 * book + (side - 48) as usize)
}
