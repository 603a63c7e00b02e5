ghost use Rattle.std.specs.Prelude.{◌≡◌, ℕ, List, [], ◌∷◌, length, MatchResult};
ghost use Rattle.numbering.specs.Answer.{Lowest, Highest};
ghost use Rattle.numbering.specs.Members.{Missing};
ghost use Rattle.numbering.specs.Streams.{came_in, repeats, lates, capped, Stands};

use crate::numbers::Numbers;
use crate::seen::Seen;
use crate::stream::Stream;
use std::alloc::{AllocError, Global};

// kept: many orders of arrival leave the same figures, so that a stream has no one list as its model
impl Stream {
    // A stream of which no packet came yet.
    pub fn new(heap: Global) -> Stream
        ensures { Stands result [] }
    {
        Stream {
            numbers: Numbers::new(heap),
            packets: 0,
            repeated: 0,
            late: 0,
        }
    }

    // Notes a packet by its number; without memory nothing changes.
    pub fn note(&mut self, n: u32) -> Result<(), AllocError>
        ensures { MatchResult result (λ _. (before : List ℕ) → Stands self.old before → Stands self.new (n ∷ before)) (λ _. (before : List ℕ) → Stands self.old before → Stands self.new before) }
    {
        match self.numbers.note(n)? {
            Seen::New => {}
            Seen::Repeated => self.repeated = self.repeated.saturating_add(1),
            Seen::Late => self.late = self.late.saturating_add(1),
        }
        self.packets = self.packets.saturating_add(1);
        Ok(())
    }

    // How many packets came.
    pub fn packets(&self) -> u64
        ensures { (came : List ℕ) → Stands self.now came → result ≡ capped (length came) }
    {
        self.packets
    }

    // How many packets had a number that came before.
    pub fn repeated(&self) -> u64
        ensures { (came : List ℕ) → Stands self.now came → result ≡ capped (repeats came) }
    {
        self.repeated
    }

    // How many packets did not, and were below the highest number before them.
    pub fn late(&self) -> u64
        ensures { (came : List ℕ) → Stands self.now came → result ≡ capped (lates came) }
    {
        self.late
    }

    // The lowest number.
    pub fn first(&self) -> Option<u32>
        ensures { (came : List ℕ) → Stands self.now came → Lowest (came_in came) result }
    {
        self.numbers.first()
    }

    // The highest number.
    pub fn last(&self) -> Option<u32>
        ensures { (came : List ℕ) → Stands self.now came → Highest (came_in came) result }
    {
        self.numbers.last()
    }

    // How many numbers between the lowest and the highest never came.
    pub fn missing(&self) -> u64
        ensures { (came : List ℕ) → Stands self.now came → Missing (came_in came) result }
    {
        self.numbers.missing()
    }
}
