ghost use Rattle.std.specs.Prelude.{◌≡◌, ◌<◌, length};
ghost use Rattle.orders.specs.Rows.{row};
ghost use Rattle.orders.specs.Shown.{at_position, shown};

use crate::order_store::OrderStore;
use crate::rows::Rows;
use crate::side::Side;
use crate::sides::row_at;
use message::values::Order;

impl<'t> Rows<'t> {
    // The order at a position of a row.
    fn at(&self, r: usize, position: usize) -> Option<Order>
        requires { r < self.now.count }
        ensures { result ≡ at_position (row self.now r) position }
    {
        if position == 0 {
            return None;
        }
        if position > self.lens[r] {
            return None;
        }
        Some(self.table[r * self.depth + (position - 1)])
    }
}

impl<'t> OrderStore<'t> {
    // The order at a position of a side, where there is one.
    pub fn order(&self, slot: usize, side: Side, position: usize) -> Option<Order>
        ensures { result ≡ at_position (shown self.now slot side) position }
    {
        if slot >= self.slots {
            return None;
        }
        self.rows.at(row_at(slot + 1, side), position)
    }

    // How many orders a side has.
    pub fn count(&self, slot: usize, side: Side) -> usize
        ensures { result ≡ length (shown self.now slot side) }
    {
        if slot >= self.slots {
            return 0;
        }
        self.rows.len(row_at(slot + 1, side))
    }
}
