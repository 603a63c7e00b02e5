ghost use Rattle.std.specs.Prelude.{◌≡◌, ◌<◌, true, List, length, if◌then◌else◌};
ghost use Rattle.message.specs.declared.values.HeaderFields.{HeaderFields};
ghost use Rattle.message.specs.Meaning.{Part};
ghost use Rattle.message.specs.Views.{meant, piece_meant};
ghost use Rattle.store.specs.Kind.{Kind, Model};
ghost use Rattle.store.specs.Law.{ImageLaw, Sound};
ghost use Rattle.store.specs.Calls.{value_at, with_slot, with_staged, with_piece, fits_at, fits_answer, takes_piece, apply_answer, applied, freshen_answer, freshened, stage_answer, staging, add_answer, added, is_whole, adopt_answer, adopted};

use crate::fault::StoreFault;
use message::message::{Message, Piece};
use message::values::HeaderFields;

// What is kept for the instruments, a value a slot, with one value staged that a snapshot's pieces build.
pub trait Store {
    // a slot's value
    ghost Value: { Type 0 };

    // what is still owed to the staged value
    ghost Owed: { Type 0 };

    // what a store is opened with, which no call changes
    ghost Setup: { Type 0 };

    ghost setup: { Self → Setup };

    ghost kind: { Setup → Kind Value Owed };

    // when a header and pieces are an image of a value
    ghost Image: { Setup → HeaderFields → List Part → Value → Type 0 };

    ghost model: { Self → Model Value Owed };

    // the laws that a store keeps, with their proofs
    ghost image: { (o : Setup) → ImageLaw (kind o) (Image o) };

    ghost sound: { (o : Setup) → Sound (kind o) };

    // The number of slots.
    fn slots(&self) -> usize
        ensures { result ≡ length (model self.now).slots };

    // Whether a message fits a slot that is there.
    fn fits_at(&self, slot: usize, m: &Message) -> bool
        requires { slot < length (model self.now).slots }
        ensures { result ≡ fits_at (kind (setup self.now)) (model self.now) slot (meant m.now) };

    // Sets a slot that is there to its value after a message, where it fits.
    fn apply_at(&mut self, slot: usize, m: &Message) -> bool
        requires { slot < length (model self.old).slots }
        ensures fits { result ≡ fits_at (kind (setup self.old)) (model self.old) slot (meant m.now) }
        ensures after { model self.new ≡ (if result then with_slot (kind (setup self.old)) (model self.old) slot ((kind (setup self.old)).after (value_at (kind (setup self.old)) (model self.old) slot) (meant m.now)) else model self.old) }
        ensures stays { setup self.new ≡ setup self.old };

    // Sets a slot that is there to the fresh value.
    fn freshen_at(&mut self, slot: usize)
        requires { slot < length (model self.old).slots }
        ensures after { model self.new ≡ with_slot (kind (setup self.old)) (model self.old) slot (kind (setup self.old)).fresh }
        ensures stays { setup self.new ≡ setup self.old };

    // Copies the staged value, to which nothing is owed, into a slot that is there.
    fn adopt_at(&mut self, slot: usize)
        requires there { slot < length (model self.old).slots }
        requires whole { is_whole (kind (setup self.old)) (model self.old) ≡ true }
        ensures after { model self.new ≡ with_slot (kind (setup self.old)) (model self.old) slot (model self.old).staged }
        ensures stays { setup self.new ≡ setup self.old };

    // Whether a header can be staged.
    fn fits_header(&self, h: &HeaderFields) -> bool
        ensures { result ≡ (kind (setup self.now)).holds h.now };

    // Starts a staged value by a header that can be staged, whatever was staged before.
    fn begin(&mut self, h: &HeaderFields)
        requires { (kind (setup self.old)).holds h.now ≡ true }
        ensures after { model self.new ≡ with_staged (kind (setup self.old)) (model self.old) ((kind (setup self.old)).begins h.now) ((kind (setup self.old)).owes h.now) }
        ensures stays { setup self.new ≡ setup self.old };

    // Whether a piece fits the staged value.
    fn fits_piece(&self, p: &Piece) -> bool
        ensures { result ≡ takes_piece (kind (setup self.now)) (model self.now) (piece_meant p.now) };

    // Adds a piece to the staged value, where it fits.
    fn take(&mut self, p: &Piece) -> bool
        ensures fits { result ≡ takes_piece (kind (setup self.old)) (model self.old) (piece_meant p.now) }
        ensures after { model self.new ≡ (if result then with_piece (kind (setup self.old)) (model self.old) (piece_meant p.now) else model self.old) }
        ensures stays { setup self.new ≡ setup self.old };

    // Whether nothing is owed to the staged value.
    fn whole(&self) -> bool
        ensures { result ≡ is_whole (kind (setup self.now)) (model self.now) };

    // Whether a message fits a slot.
    final fn fits(&self, slot: usize, m: &Message) -> Result<bool, StoreFault>
        ensures { result ≡ fits_answer (kind (setup self.now)) (model self.now) slot (meant m.now) }
    {
        if slot >= self.slots() {
            return Err(StoreFault::Slot(slot));
        }
        Ok(self.fits_at(slot, m))
    }

    // Sets a slot to its value after a message that fits.
    final fn apply(&mut self, slot: usize, m: &Message) -> Result<(), StoreFault>
        ensures answer { result ≡ apply_answer (kind (setup self.old)) (model self.old) slot (meant m.now) }
        ensures after { model self.new ≡ applied (kind (setup self.old)) (model self.old) slot (meant m.now) }
        ensures stays { setup self.new ≡ setup self.old }
    {
        if slot >= self.slots() {
            return Err(StoreFault::Slot(slot));
        }
        if !self.apply_at(slot, m) {
            return Err(StoreFault::Unfit);
        }
        Ok(())
    }

    // Sets a slot to the fresh value.
    final fn freshen(&mut self, slot: usize) -> Result<(), StoreFault>
        ensures answer { result ≡ freshen_answer (kind (setup self.old)) (model self.old) slot }
        ensures after { model self.new ≡ freshened (kind (setup self.old)) (model self.old) slot }
        ensures stays { setup self.new ≡ setup self.old }
    {
        if slot >= self.slots() {
            return Err(StoreFault::Slot(slot));
        }
        self.freshen_at(slot);
        Ok(())
    }

    // Starts a staged value by a header, whatever was staged before.
    final fn stage(&mut self, h: &HeaderFields) -> Result<(), StoreFault>
        ensures answer { result ≡ stage_answer (kind (setup self.old)) (model self.old) h.now }
        ensures after { model self.new ≡ staging (kind (setup self.old)) (model self.old) h.now }
        ensures stays { setup self.new ≡ setup self.old }
    {
        if !self.fits_header(h) {
            return Err(StoreFault::Unfit);
        }
        self.begin(h);
        Ok(())
    }

    // Adds a piece that fits to the staged value.
    final fn add(&mut self, p: &Piece) -> Result<(), StoreFault>
        ensures answer { result ≡ add_answer (kind (setup self.old)) (model self.old) (piece_meant p.now) }
        ensures after { model self.new ≡ added (kind (setup self.old)) (model self.old) (piece_meant p.now) }
        ensures stays { setup self.new ≡ setup self.old }
    {
        if !self.take(p) {
            return Err(StoreFault::Unfit);
        }
        Ok(())
    }

    // Copies the staged value into a slot, once nothing is owed to it.
    final fn adopt(&mut self, slot: usize) -> Result<(), StoreFault>
        ensures answer { result ≡ adopt_answer (kind (setup self.old)) (model self.old) slot }
        ensures after { model self.new ≡ adopted (kind (setup self.old)) (model self.old) slot }
        ensures stays { setup self.new ≡ setup self.old }
    {
        if slot >= self.slots() {
            return Err(StoreFault::Slot(slot));
        }
        if !self.whole() {
            return Err(StoreFault::Owed);
        }
        self.adopt_at(slot);
        Ok(())
    }
}
