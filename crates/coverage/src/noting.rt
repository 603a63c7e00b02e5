ghost use Rattle.std.specs.Prelude.{◌≡◌, ◌*◌, ◌/◌, ◌^◌, ◌<◌, ◌≤◌, ◌⊎◌, List, [], IfOk};
ghost use Rattle.coverage.specs.Notes.{Note, noting};
ghost use Rattle.coverage.specs.Told.{Told};

use crate::cells::{halve, lift};
use crate::levels::Levels;
use std::alloc::{AllocError, Global};

impl Levels {
    // Columns of one number each, with nothing noted.
    pub fn new(heap: Global) -> Result<Levels, AllocError>
        ensures { IfOk result (λ l. (l.width ≡ 1) × Told l []) }
    {
        let cells = vec![in heap; 0u8; 1024]?;
        Ok(Levels { cells, width: 1 })
    }

    // Joins each two columns to one, so that as many columns hold twice the numbers.
    fn widen(&mut self)
        requires { self.old.width < 2 ^ 63 }
        ensures width { self.new.width ≡ self.old.width * 2 }
        ensures told { (notes : List Note) → Told self.old notes → Told self.new notes }
    {
        halve(self.cells.as_mut_slice());
        self.width *= 2;
    }

    // Notes a level at each number from the low to the high one; the columns widen until they hold them.
    pub fn note(&mut self, low: u64, high: u64, level: u8)
        ensures told { (notes : List Note) → Told self.old notes → Told self.new (noting low high level notes) }
        ensures width { (self.new.width ≡ self.old.width) ⊎ (512 ≤ high / self.new.width) }
    {
        if low > high {
            return;
        }
        while high / self.width >= 1024 {
            self.widen();
        }
        let from = (low / self.width) as usize;
        let to = (high / self.width) as usize;
        lift(self.cells.as_mut_slice(), from, to + 1, level);
    }
}
