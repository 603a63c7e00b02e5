ghost use Rattle.std.specs.Prelude.{◌≡◌, ℕ, ◌<◌, ◌≤◌, List, Bool, length, if◌then◌else◌};
ghost use Rattle.layout.specs.declared.kinds.Actions.{Actions};
ghost use Rattle.message.specs.declared.values.Order.{Order};
ghost use Rattle.orders.specs.Edits.{taken, fits_order, after_order, fits_mass, after_mass, after_delete};
ghost use Rattle.orders.specs.Rows.{Puts, row};

use crate::rows::Rows;
use layout::kinds::Actions;
use message::values::{DeleteFields, MassFields, OrderFields};

// What a message asks of one side of a book, read from its fields.
pub(crate) trait SideEdit {
    // the side's number
    ghost side_number: { Self → ℕ };

    // whether it fits a side of so many orders, where there is room for depth of them
    ghost suits: { Actions → ℕ → ℕ → Self → Bool };

    // the side after it, where it fits
    ghost leaves: { Actions → List Order → Self → List Order };

    fn side(&self) -> u64
        ensures { result ≡ side_number self.now };

    // Whether it fits a side of n orders.
    fn fits(&self, a: Actions, depth: usize, n: usize) -> bool
        requires { n ≤ depth }
        ensures { result ≡ suits a depth n self.now };

    // Edits a row, where it fits.
    fn edit<'t>(&self, a: Actions, rows: &mut Rows<'t>, r: usize) -> bool
        requires { r < rows.old.count }
        ensures fits { result ≡ suits a rows.old.depth (length (row rows.old r)) self.now }
        ensures puts { Puts rows.old rows.new r (if result then leaves a (row rows.old r) self.now else row rows.old r) };
}

impl SideEdit for OrderFields {
    ghost side_number = { λ f. f.side };

    ghost suits = { fits_order };

    ghost leaves = { after_order };

    fn side(&self) -> u64 {
        self.side
    }

    fn fits(&self, a: Actions, depth: usize, n: usize) -> bool {
        if self.action == u64::from(a.new) {
            return positions::fits_insert(depth, n, self.position as usize);
        }
        self.action == u64::from(a.change)
            && positions::fits_change(depth, n, self.position as usize)
    }

    fn edit<'t>(&self, a: Actions, rows: &mut Rows<'t>, r: usize) -> bool {
        if self.action == u64::from(a.new) {
            return rows.insert(r, self.position as usize, self.order);
        }
        if self.action == u64::from(a.change) {
            return rows.change(r, self.position as usize, self.order);
        }
        false
    }
}

impl SideEdit for DeleteFields {
    ghost side_number = { λ f. f.side };

    ghost suits = { λ a d n f. taken n f.position };

    ghost leaves = { λ a xs f. after_delete xs f.position };

    fn side(&self) -> u64 {
        self.side
    }

    fn fits(&self, _: Actions, _: usize, n: usize) -> bool {
        is_taken(n, self.position)
    }

    fn edit<'t>(&self, _: Actions, rows: &mut Rows<'t>, r: usize) -> bool {
        rows.cut(r, self.position as usize, self.position as usize)
    }
}

impl SideEdit for MassFields {
    ghost side_number = { λ f. f.side };

    ghost suits = { λ a d n f. fits_mass a n f };

    ghost leaves = { after_mass };

    fn side(&self) -> u64 {
        self.side
    }

    fn fits(&self, a: Actions, _: usize, n: usize) -> bool {
        (self.action == u64::from(a.topcut) || self.action == u64::from(a.bottomcut))
            && is_taken(n, self.position)
    }

    fn edit<'t>(&self, a: Actions, rows: &mut Rows<'t>, r: usize) -> bool {
        if self.action == u64::from(a.topcut) {
            return rows.cut(r, 1, self.position as usize);
        }
        if self.action == u64::from(a.bottomcut) {
            let n = rows.len(r);
            return rows.cut(r, self.position as usize, n);
        }
        false
    }
}

// Whether an order stands at that position of n.
fn is_taken(n: usize, position: u64) -> bool
    ensures { result ≡ taken n position }
{
    1 <= position && position <= n as u64
}
