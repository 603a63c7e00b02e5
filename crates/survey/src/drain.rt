ghost use Rattle.std.specs.Prelude.{◌≡◌, ℕ, ◌+◌, ◌^◌, ◌<◌, ◌≤◌, true, List, [], length, OnOk, IfOk};
ghost use Rattle.survey.specs.Window.{GoesOn};

use capture::fault::CaptureFault;
use destinations::table::Table;
use layout::sheet::Sheet;
use reading::window::Window;
use std::alloc::{AllocError, Global};

// Notes every whole record that a window has still to show; the fault, where the file breaks.
pub fn drain(
    table: &mut Table,
    heap: Global,
    sheet: &Sheet,
    window: &mut Window,
) -> Result<Option<CaptureFault>, AllocError>
    ensures tally { IfOk result (λ fault. window.old.part.offset + length window.old.part.bytes.now < 2 ^ 64 → (rest : List ℕ) → (window.old.part.last ≡ true → rest ≡ []) → GoesOn window.old rest table.old.tally table.new.tally window.new fault) }
    ensures onward { window.old.at ≤ window.new.at }
    ensures same { window.new.part ≡ window.old.part }
{
    loop {
        match window.next() {
            Ok(Some(frame)) => table.note(heap, sheet, &frame)?,
            Ok(None) => return Ok(None),
            Err(fault) => return Ok(Some(fault)),
        }
    }
}
