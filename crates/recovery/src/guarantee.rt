ghost use Rattle.std.specs.Prelude.{◌≡◌, ℕ};
ghost use Rattle.recovery.specs.State.{Opening, State};
ghost use Rattle.recovery.specs.Guarantee.{Recovery};
ghost use Rattle.recovery.specs.Present.{Guaranteed};
ghost use Rattle.recovery.specs.Pattern.{two_templates};
ghost use Rattle.recovery.specs.Points.{Worked, Points};

use layout::sheet::Sheet;
use store::store::Store;

// what the guarantee has: true books, same reach, comes current
const PARTS: u8 = 3;

// what the example shows: a run over a snapshot loop, and one over two swapped packets
const RUNS: u8 = 2;

fn parts() -> u8
    ensures { result ≡ 3 }
{
    PARTS
}

fn runs() -> u8
    ensures { result ≡ 2 }
{
    RUNS
}

// The recovery guarantee holds of every store: it follows from the laws that a store keeps. The number of its parts.
pub fn recovery_stands<S: Store>() -> u8
    ensures parts { result ≡ 3 }
    ensures guarantee { (o : S.Setup) → Recovery (S.kind o) (S.Image o) }
    ensures present { (o : S.Setup) (opening : Opening) (s : State S.Value S.Owed) (i : ℕ) → Guaranteed (S.kind o) opening s i (S.Image o) }
{
    parts()
}

// The guarantee's premises can be met, all at once, and the machine comes to known points. Of the sheet only where it
// lies is taken: the example has templates of its own. The number of its runs.
pub fn example_stands(sheet: &Sheet) -> u8
    ensures runs { result ≡ 2 }
    ensures worked { Worked (two_templates sheet.now) }
    ensures points { Points (two_templates sheet.now) }
{
    runs()
}
