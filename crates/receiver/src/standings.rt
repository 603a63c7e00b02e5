ghost use Rattle.std.specs.Prelude.{◌≡◌, slice_index_or};
ghost use Rattle.recovery.specs.declared.marks.Mark.TheVariants.{Stale};
ghost use Rattle.recovery.specs.Answers.{standing};

use crate::calls::standing;
use crate::receiver::Receiver;
use recovery::answers::Standing;
use recovery::marks::Mark;

impl Receiver {
    // How the book at a slot stands; stale where nothing is watched there.
    pub fn standing_at(&self, slot: usize) -> Standing
        ensures { result ≡ standing self.now.plain.places.heard (slice_index_or self.now.plain.marks.at slot Stale) }
    {
        if slot >= 64 {
            return standing(self.plain.places.heard, Mark::Stale);
        }
        standing(self.plain.places.heard, self.plain.marks.mark(slot))
    }
}
