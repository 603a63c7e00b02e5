ghost use Rattle.std.specs.Prelude.{◌≡◌};
ghost use Rattle.sheet_text.specs.Refusals.{sheet_refusal};

use crate::types::SheetFault;
use refusal::{Layer, Reason, Refusal};

// A fault's reason, layer and place.
impl From<SheetFault> for Refusal {
    ghost from_gives = { λ fault refusal. refusal ≡ sheet_refusal fault };

    fn from(fault: SheetFault) -> Refusal {
        Refusal {
            reason: Reason::Sheet,
            layer: Layer::Sheet,
            place: fault.line,
        }
    }
}
