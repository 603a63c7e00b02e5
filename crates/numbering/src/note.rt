ghost use Rattle.std.specs.Prelude.{◌≡◌, ℕ, false, ◌||◌, is_ok, IfOk, if◌then◌else◌, ◌==◌};
ghost use Rattle.numbering.specs.Answer.{Answer, Lowest, Highest};
ghost use Rattle.numbering.specs.Members.{has, Missing};

use crate::numbers::Numbers;
use crate::seen::Seen;
use crate::spans::Spans;
use std::alloc::{AllocError, Global};

impl Numbers {
    // No number came yet.
    pub fn new(heap: Global) -> Numbers
        ensures { (m : ℕ) → has result m ≡ false }
    {
        Numbers {
            spans: Spans {
                list: Vec::new(heap),
            },
            came: 0,
        }
    }

    // Notes that `n` came, and says what it is to those before; without memory nothing changes.
    pub fn note(&mut self, n: u32) -> Result<Seen, AllocError>
        ensures answer { IfOk result (λ seen. Answer (has self.old) n seen) }
        ensures members { (m : ℕ) → has self.new m ≡ (if is_ok result then (m == n) || has self.old m else has self.old m) }
    {
        let p = self.spans.place(n);
        let seen = self.spans.seen_at(p, n);
        match seen {
            Seen::Repeated => {}
            Seen::New | Seen::Late => {
                self.spans.enter(p, n)?;
                self.came += 1;
            }
        }
        Ok(seen)
    }

    // The lowest number that came.
    pub fn first(&self) -> Option<u32>
        ensures { Lowest (has self.now) result }
    {
        self.spans.list.first().map(|span| span.low)
    }

    // The highest number that came.
    pub fn last(&self) -> Option<u32>
        ensures { Highest (has self.now) result }
    {
        self.spans.list.last().map(|span| span.high)
    }

    // How many numbers between the lowest and the highest never came.
    pub fn missing(&self) -> u64
        ensures { Missing (has self.now) result }
    {
        match (self.first(), self.last()) {
            (Some(first), Some(last)) => u64::from(last) - u64::from(first) + 1 - self.came,
            _ => 0,
        }
    }
}
