ghost use Rattle.std.specs.Prelude.{◌≡◌, slice_index_or};
ghost use Rattle.recovery.specs.declared.marks.Mark.TheVariants.{Stale};
ghost use Rattle.recovery.specs.Answers.{standing};

use crate::desk::Desk;
use recovery::answers::Standing;

impl Desk {
    // How the book at a slot stands, as a question about its instrument answers; stale where nothing is watched there.
    pub fn standing_at(&self, slot: usize) -> Standing
        ensures { result ≡ standing self.now.receiver.plain.places.heard (slice_index_or self.now.receiver.plain.marks.at slot Stale) }
    {
        self.receiver.standing_at(slot)
    }
}
