ghost use Rattle.std.specs.Prelude.{◌≡◌, ◌*◌, ◌^◌, ◌<◌};
ghost use Rattle.figures.specs.Sides.{priced, top_of, total_of, side_figures, book_figures};

use crate::figures::{Figures, SideFigures, Top};
use message::values::Order;

// A price, where it is one.
fn price_of(price: i64) -> Option<i64>
    ensures { result ≡ priced price }
{
    (price != i64::MIN).then_some(price)
}

// The order at position 1.
fn top_of(orders: &[Order]) -> Option<Top>
    ensures { result ≡ top_of orders.now }
{
    orders.first().map(|first| Top {
        price: price_of(first.price),
        size: first.size,
    })
}

// The sizes of all orders together, which never wrap.
fn total_of(orders: &[Order]) -> u128
    ensures { result ≡ total_of orders.now }
{
    orders.iter().map(|order| u128::from(order.size)).sum()
}

impl SideFigures {
    // What is told of a side with these orders.
    pub fn of(orders: &[Order]) -> SideFigures
        ensures { result ≡ side_figures orders.now }
    {
        SideFigures {
            top: top_of(orders),
            orders: orders.len(),
            total: total_of(orders),
        }
    }
}

impl Figures {
    // What is told of a book with these bids and offers.
    pub fn of(bids: &[Order], offers: &[Order]) -> Figures
        ensures { result ≡ book_figures bids.now offers.now }
    {
        Figures {
            bid: SideFigures::of(bids),
            offer: SideFigures::of(offers),
        }
    }
}
