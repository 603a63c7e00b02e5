ghost use Rattle.std.specs.Prelude.{◌≡◌, true};
ghost use Rattle.replay.specs.Tied.{tied};

use receiver::join::Join;
use receiver::receiver::Receiver;

// a receiver with the join that it has given and not yet taken back
pub struct Desk {
    pub(crate) receiver: Receiver,
    pub(crate) held: Option<Join>,
    ghost keeps: { tied receiver.plain.joined receiver.sub.own held ≡ true },
}
