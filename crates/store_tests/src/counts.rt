ghost use Rattle.std.specs.Prelude.{◌≡◌, ℕ, true, false, MatchOption};
ghost use Rattle.message.specs.Views.{meant};
ghost use Rattle.store.specs.Kind.{New};
ghost use Rattle.store_tests.specs.Tally.{tally, TallyImage, fits_tally, after_tally};
ghost use Rattle.store_tests.specs.TallyLaw.{tally_image, tally-sound};
ghost use Rattle.store_tests.specs.Model.{model_of};

use crate::tally::Tally;
use message::fields::{delete_fields, entry_fields, mass_fields, order_fields, stat_fields};
use message::message::{Message, Piece};
use message::values::HeaderFields;
use store::store::Store;

// The count after a message that fits.
fn counted(v: u32, m: &Message) -> Option<u32>
    ensures { MatchOption result (fits_tally v (meant m.now) ≡ false) (λ n. (fits_tally v (meant m.now) ≡ true) × (n ≡ after_tally v (meant m.now))) }
{
    match *m {
        Message::Stat(l, part) => {
            let _ = stat_fields(l, part)?;
            if v < 1000 {
                return Some(v + 1);
            }
            None
        }
        Message::Order(l, part) => {
            let _ = order_fields(l, part)?;
            Some(v)
        }
        Message::Delete(l, part) => {
            let _ = delete_fields(l, part)?;
            Some(v)
        }
        Message::Mass(l, part) => {
            let _ = mass_fields(l, part)?;
            Some(v)
        }
        Message::Empty(_, _) => Some(v),
        Message::Header(_, _) => Some(v),
        Message::Entries(_, _) => Some(v),
        Message::Other(_) => Some(v),
    }
}

// A store of counts, all 0.
pub fn open() -> Tally
    ensures { New tally 4 (model_of result) }
{
    let slots = [0; 4];
    Tally {
        slots,
        staged: 0,
        owed: 0,
    }
}

impl Store for Tally {
    ghost Value = { ℕ };

    ghost Owed = { ℕ };

    ghost Setup = { Unit {0} };

    ghost setup = { λ _. tt };

    ghost kind = { λ _. tally };

    ghost Image = { λ _. TallyImage };

    ghost model = { model_of };

    ghost image = { λ _. tally_image };

    ghost sound = { λ _. tally-sound };

    fn slots(&self) -> usize {
        4
    }

    fn fits_at(&self, slot: usize, m: &Message) -> bool {
        counted(self.slots[slot], m).is_some()
    }

    fn apply_at(&mut self, slot: usize, m: &Message) -> bool {
        match counted(self.slots[slot], m) {
            Some(n) => {
                self.slots[slot] = n;
                true
            }
            None => false,
        }
    }

    fn freshen_at(&mut self, slot: usize) {
        self.slots[slot] = 0;
    }

    fn adopt_at(&mut self, slot: usize) {
        self.slots[slot] = self.staged;
    }

    fn fits_header(&self, h: &HeaderFields) -> bool {
        h.stats <= 1000
    }

    fn begin(&mut self, h: &HeaderFields) {
        self.staged = 0;
        self.owed = h.stats as u32;
    }

    fn fits_piece(&self, p: &Piece) -> bool {
        match *p {
            Piece::Entry(l, part) => entry_fields(l, part).is_some(),
            Piece::Stat(l, part) => {
                stat_fields(l, part).is_some() && 0 < self.owed && self.staged < 1000
            }
        }
    }

    fn take(&mut self, p: &Piece) -> bool {
        if !self.fits_piece(p) {
            return false;
        }
        match *p {
            Piece::Entry(_, _) => true,
            Piece::Stat(_, _) => {
                self.staged = self.staged.saturating_add(1);
                self.owed = self.owed.saturating_sub(1);
                true
            }
        }
    }

    fn whole(&self) -> bool {
        self.owed == 0
    }
}
