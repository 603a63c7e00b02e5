ghost use Rattle.std.specs.Prelude.{IfOk};
ghost use Rattle.coverage.specs.Changes.{TurnTaken, AdoptionNoted};
ghost use Rattle.coverage.specs.Held.{Clear};
ghost use Rattle.coverage.specs.Shades.{level_of};

use crate::band::Band;
use crate::levels::Levels;
use crate::shade::Shade;
use std::alloc::{AllocError, Global};

impl Band {
    // A band from a number on, of which nothing is told yet.
    pub fn new(heap: Global, first: u64) -> Result<Band, AllocError>
        ensures { IfOk result (λ b. Clear b first) }
    {
        let shades = Levels::new(heap)?;
        let adoptions = Levels::new(heap)?;
        Ok(Band {
            shades,
            adoptions,
            first,
            since: first,
            shade: Shade::Blank,
            current: 0,
        })
    }

    // The book has this shade from a number on, which counts as that of the last turn where it is lower.
    pub fn turn(&mut self, from: u64, shade: Shade)
        ensures { TurnTaken self.old self.new from (level_of shade) }
    {
        let next = self.since.max(from);
        let last = self.since.max(next.saturating_sub(1));
        let low = self.since - self.first;
        let high = last - self.first;
        self.shades.note(low, high, self.shade.level());
        if self.shade == Shade::Current {
            self.current += next - self.since;
        }
        self.since = next;
        self.shade = shade;
    }

    // A snapshot was adopted at a number.
    pub fn adopt(&mut self, number: u64)
        ensures { AdoptionNoted self.old self.new number }
    {
        let at = number.saturating_sub(self.first);
        self.adoptions.note(at, at, 1);
    }
}
