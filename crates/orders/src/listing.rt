ghost use Rattle.std.specs.Prelude.{◌≡◌, ◌<◌};
ghost use Rattle.orders.specs.Rows.{row};
ghost use Rattle.orders.specs.Shown.{shown};

use crate::order_store::OrderStore;
use crate::rows::Rows;
use crate::side::Side;
use crate::sides::row_at;
use message::values::Order;

impl<'t> Rows<'t> {
    // The orders of a row.
    fn list(&self, r: usize) -> &[Order]
        requires { r < self.now.count }
        ensures { result.now ≡ row self.now r }
    {
        let from = r * self.depth;
        &self.table[from..from + self.lens[r]]
    }
}

impl<'t> OrderStore<'t> {
    // The orders of a side, by position; none where there is no such slot.
    pub fn side(&self, slot: usize, side: Side) -> &[Order]
        ensures { result.now ≡ shown self.now slot side }
    {
        if slot >= self.slots {
            return &[];
        }
        self.rows.list(row_at(slot + 1, side))
    }
}
