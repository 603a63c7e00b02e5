ghost use Rattle.std.specs.Prelude.{◌≡◌};
ghost use Rattle.store.specs.Faults.{by_store, refusal_of};

use crate::fault::StoreFault;
use refusal::{Layer, Reason, Refusal};

fn by_store(reason: Reason, place: usize) -> Refusal
    ensures { result ≡ by_store reason place }
{
    Refusal {
        reason,
        layer: Layer::Store,
        place,
    }
}

// A fault's reason, layer and place.
impl From<StoreFault> for Refusal {
    ghost from_gives = { λ fault refusal. refusal ≡ refusal_of fault };

    fn from(fault: StoreFault) -> Refusal {
        match fault {
            StoreFault::Opening => by_store(Reason::Opening, 4),
            StoreFault::Slot(slot) => by_store(Reason::Slot, slot),
            StoreFault::Unfit => by_store(Reason::Unfit, 0),
            StoreFault::Owed => by_store(Reason::Owed, 0),
        }
    }
}
