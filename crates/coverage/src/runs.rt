ghost use Rattle.std.specs.Prelude.{◌≡◌};

use crate::levels::Levels;

// like columns, one behind the other, from one to before another
#[derive(Clone, Copy, Debug, PartialEq, Eq)]
pub struct Run {
    pub level: u8,
    pub from: usize,
    pub end: usize,
}

// the runs of columns that are left, from a column on
#[derive(Clone, Copy)]
pub struct Runs<'a> {
    pub(crate) levels: &'a Levels,
    pub(crate) column: usize,
}

impl Levels {
    // The runs of like columns.
    pub fn runs(&self) -> Runs<'_>
        ensures levels { result.levels.now ≡ self.now }
        ensures first { result.column ≡ 0 }
    {
        Runs {
            levels: self,
            column: 0,
        }
    }
}

impl Iterator for Runs<'_> {
    type Item = Run;

    ghost use Rattle.std.specs.Prelude.{◌-◌, length};
    ghost use Rattle.std.specs.Iterator.{at_most};
    ghost use Rattle.coverage.specs.Runs.{YieldsRun};

    ghost next_gives = { YieldsRun };

    ghost remaining = { λ s. at_most (length s.levels.now.cells.items - s.column) };

    fn next(&mut self) -> Option<Run> {
        let from = self.column;
        let level = *self.levels.cells.get(from)?;
        let end = self.levels.run_end(from);
        self.column = end;
        Some(Run { level, from, end })
    }
}
