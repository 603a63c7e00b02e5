ghost use Rattle.std.specs.Prelude.{◌≡◌, ℕ, ◌*◌, ◌≤◌, true, [], length, if◌then◌else◌, Ok, Err};
ghost use Rattle.store.specs.declared.fault.StoreFault.TheVariants.{Opening};
ghost use Rattle.store.specs.Kind.{New};
ghost use Rattle.orders.specs.Kind.{Setup, orders};
ghost use Rattle.orders.specs.Opening.{may_open, slots_in};
ghost use Rattle.orders.specs.Rows.{row};
ghost use Rattle.orders.specs.Model.{setup_of, model_of};

use crate::due::Due;
use crate::order_store::OrderStore;
use crate::rows::Rows;
use layout::kinds::Actions;
use message::values::Order;
use store::fault::StoreFault;

// Whether books of `depth` orders a side can be kept in a table of so many orders.
pub fn check_opening(depth: usize, room: usize) -> Result<(), StoreFault>
    ensures { result ≡ (if may_open depth room then Ok tt else Err Opening) }
{
    if 1 <= depth && depth <= 1024 && 4 * depth <= room {
        return Ok(());
    }
    Err(StoreFault::Opening)
}

// How many slots a table of so many orders has room for.
fn slots_in(depth: usize, room: usize) -> usize
    requires { may_open depth room ≡ true }
    ensures { result ≡ slots_in depth room }
{
    (room / (2 * depth) - 1).min(64)
}

// How many slots a table of so many orders has, where books of `depth` orders a side can be kept in it.
pub fn count_slots(depth: usize, room: usize) -> Result<usize, StoreFault>
    ensures { result ≡ (if may_open depth room then Ok (slots_in depth room) else Err Opening) }
{
    check_opening(depth, room)?;
    Ok(slots_in(depth, room))
}

// Rows with no orders, whatever the table held.
fn empty_rows<'t>(table: &'t mut [Order], depth: usize, count: usize) -> Rows<'t>
    requires { (count ≤ 130) × (count * depth ≤ length table.old) }
    ensures rows { (r : ℕ) → row result r ≡ [] }
    ensures size { (result.depth ≡ depth) × (result.count ≡ count) }
{
    Rows {
        table,
        lens: [0; 130],
        depth,
        count,
    }
}

impl<'t> OrderStore<'t> {
    // A store of books in that table, all fresh, once the check has passed.
    pub fn open(actions: Actions, depth: usize, table: &'t mut [Order]) -> OrderStore<'t>
        requires { may_open depth (length table.old) ≡ true }
        ensures setup { ((setup_of result).actions ≡ actions) × ((setup_of result).depth ≡ depth) }
        ensures model { New (orders (setup_of result)) (slots_in depth (length table.old)) (model_of result) }
    {
        let slots = slots_in(depth, table.len());
        OrderStore {
            rows: empty_rows(table, depth, 2 * slots + 2),
            slots,
            actions,
            owed: Due { bids: 0, offers: 0 },
        }
    }
}
