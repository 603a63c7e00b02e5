ghost use Rattle.std.specs.Prelude.{◌≡◌, ◌+◌, ◌*◌, ◌≤◌, length};
ghost use Rattle.orders.specs.Rows.{row};

use crate::due::Due;
use crate::rows::Rows;
use layout::kinds::Actions;

// books in a lent table: the staged book first, then a book for each slot
#[derive(Drop)]
pub struct OrderStore<'t> {
    pub(crate) rows: Rows<'t>,
    pub(crate) slots: usize,
    pub(crate) actions: Actions,
    pub(crate) owed: Due,
    ghost few: { slots ≤ 64 },
    ghost shallow: { rows.depth ≤ 1024 },
    ghost count: { rows.count ≡ 2 * slots + 2 },
    ghost bids: { length (row rows 0) + owed.bids ≤ rows.depth },
    ghost offers: { length (row rows 1) + owed.offers ≤ rows.depth },
}
