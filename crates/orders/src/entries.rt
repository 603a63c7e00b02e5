ghost use Rattle.std.specs.Prelude.{◌≡◌, if◌then◌else◌};
ghost use Rattle.message.specs.Meaning.{entry};
ghost use Rattle.store.specs.Calls.{with_piece};
ghost use Rattle.orders.specs.Kind.{orders};
ghost use Rattle.orders.specs.Staged.{fits_entry};
ghost use Rattle.orders.specs.Model.{setup_of, model_of};
ghost use Rattle.orders.specs.Rows.{book_at};

use crate::order_store::OrderStore;
use crate::side::Side;
use message::values::EntryFields;

// An entry of a snapshot stands at its side's next position while one is owed.
impl<'t> OrderStore<'t> {
    pub(crate) fn fits_entry(&self, e: &EntryFields) -> bool
        ensures { result ≡ fits_entry (book_at self.now.rows 0) self.now.owed e.now }
    {
        match Side::try_from(e.side) {
            Ok(Side::Bid) => e.position == self.rows.len(0) as u64 + 1 && 0 < self.owed.bids,
            Ok(Side::Offer) => e.position == self.rows.len(1) as u64 + 1 && 0 < self.owed.offers,
            Err(_) => false,
        }
    }

    pub(crate) fn take_entry(&mut self, e: &EntryFields) -> bool
        ensures fits { result ≡ fits_entry (book_at self.old.rows 0) self.old.owed e.now }
        ensures after { model_of self.new ≡ (if result then with_piece (orders (setup_of self.old)) (model_of self.old) (entry e.now) else model_of self.old) }
        ensures stays { setup_of self.new ≡ setup_of self.old }
    {
        if !self.fits_entry(e) {
            return false;
        }
        if e.side == 48 {
            self.rows.push(0, e.order);
            self.owed.bids -= 1;
        } else {
            self.rows.push(1, e.order);
            self.owed.offers -= 1;
        }
        true
    }
}
