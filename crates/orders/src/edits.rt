ghost use Rattle.std.specs.Prelude.{◌≡◌, ◌+◌, ◌-◌, ◌<◌, ◌≤◌, [], ◌∷◌, ◌++◌, length, if◌then◌else◌};
ghost use Rattle.positions.specs.Positions.{fits_insert, fits_change, fits_cut, inserted_at, changed_at, cut_out};
ghost use Rattle.orders.specs.Rows.{Puts, row};

use crate::rows::Rows;
use message::values::Order;

// Each of these edits one row of a table that holds its rows.
impl<'t> Rows<'t> {
    // How many orders a row has.
    pub(crate) fn len(&self, r: usize) -> usize
        requires { r < self.now.count }
        ensures len { result ≡ length (row self.now r) }
        ensures room { result ≤ self.now.depth }
    {
        self.lens[r]
    }

    // A new order at position p of a row, where it fits.
    pub(crate) fn insert(&mut self, r: usize, p: usize, x: Order) -> bool
        requires { r < self.old.count }
        ensures fits { result ≡ fits_insert self.old.depth (length (row self.old r)) p }
        ensures puts { Puts self.old self.new r (if result then inserted_at (row self.old r) p x else row self.old r) }
    {
        let base = r * self.depth;
        let n = self.lens[r];
        let end = base + self.depth;
        let table = &mut *self.table;
        if positions::insert(&mut table[base..end], n, p, x) {
            self.lens[r] = n + 1;
            return true;
        }
        false
    }

    // Another order at position p of a row, where one stands.
    pub(crate) fn change(&mut self, r: usize, p: usize, x: Order) -> bool
        requires { r < self.old.count }
        ensures fits { result ≡ fits_change self.old.depth (length (row self.old r)) p }
        ensures puts { Puts self.old self.new r (if result then changed_at (row self.old r) p x else row self.old r) }
    {
        let base = r * self.depth;
        let n = self.lens[r];
        let end = base + self.depth;
        let table = &mut *self.table;
        positions::change(&mut table[base..end], n, p, x)
    }

    // A row without the orders at positions p to q, where there are such.
    pub(crate) fn cut(&mut self, r: usize, p: usize, q: usize) -> bool
        requires { r < self.old.count }
        ensures fits { result ≡ fits_cut self.old.depth (length (row self.old r)) p q }
        ensures puts { Puts self.old self.new r (if result then cut_out (row self.old r) p q else row self.old r) }
    {
        let base = r * self.depth;
        let n = self.lens[r];
        let end = base + self.depth;
        let table = &mut *self.table;
        if positions::cut(&mut table[base..end], n, p, q) {
            self.lens[r] = p - 1 + (n - q);
            return true;
        }
        false
    }

    // One order more at the end of a row that has room for it.
    pub(crate) fn push(&mut self, r: usize, x: Order)
        requires { (r < self.old.count) × (length (row self.old r) < self.old.depth) }
        ensures { Puts self.old self.new r (row self.old r ++ (x ∷ [])) }
    {
        let n = self.lens[r];
        let end = r * self.depth + n;
        self.table[end] = x;
        self.lens[r] = n + 1;
    }

    // No orders in a row.
    pub(crate) fn clear(&mut self, r: usize)
        requires { r < self.old.count }
        ensures { Puts self.old self.new r [] }
    {
        self.lens[r] = 0;
    }

    // The orders of one row in another.
    pub(crate) fn copy(&mut self, from: usize, to: usize)
        requires { (from < self.old.count) × (to < self.old.count) }
        ensures { Puts self.old self.new to (row self.old from) }
    {
        let n = self.lens[from];
        let base = from * self.depth;
        let place = to * self.depth;
        self.table.copy_within(base..base + n, place);
        self.lens[to] = n;
    }
}
