ghost use Rattle.std.specs.Prelude.{◌≡◌, replicate};
ghost use Rattle.destinations.specs.Counting.{never, one_more, refused_noted};

use crate::received::Received;
use crate::refusals::Refusals;
use refusal::Refusal;

impl Received {
    // No packet yet.
    pub fn new() -> Received
        ensures { (result.taken ≡ 0) × (result.repeated ≡ 0) × (result.refusals.all ≡ replicate 20 never) }
    {
        Received {
            taken: 0,
            repeated: 0,
            refusals: Refusals::none(),
        }
    }

    // Counts a packet that was taken.
    pub fn take(&mut self)
        ensures { (self.new.taken ≡ one_more self.old.taken) × (self.new.repeated ≡ self.old.repeated) × (self.new.refusals ≡ self.old.refusals) }
    {
        self.taken = self.taken.saturating_add(1);
    }

    // Counts a packet that came before.
    pub fn repeat(&mut self)
        ensures { (self.new.repeated ≡ one_more self.old.repeated) × (self.new.taken ≡ self.old.taken) × (self.new.refusals ≡ self.old.refusals) }
    {
        self.repeated = self.repeated.saturating_add(1);
    }

    // Counts a refusal under its reason, in the record with that index.
    pub fn refuse(&mut self, refusal: Refusal, index: u64)
        ensures reasons { self.new.refusals.all ≡ refused_noted self.old.refusals.all refusal index }
        ensures others { (self.new.taken ≡ self.old.taken) × (self.new.repeated ≡ self.old.repeated) }
    {
        self.refusals.note(refusal, index);
    }
}
