ghost use Rattle.std.specs.Prelude.{◌≡◌, ℕ, ◌+◌, ◌-◌, ◌^◌, ◌<◌, ◌≤◌, min, IfOk, MatchResult};
ghost use Rattle.coverage.specs.Bands.{count, band_at, Beside};
ghost use Rattle.coverage.specs.Changes.{TurnTaken, Passed, AdoptionNoted};
ghost use Rattle.coverage.specs.Held.{Clear};
ghost use Rattle.coverage.specs.Shades.{level_of};
ghost use Rattle.coverage.specs.declared.band.Band.{Band};

use crate::band::Band;
use crate::coverage::Coverage;
use crate::fault::NoBand;
use crate::shade::Shade;
use std::alloc::{AllocError, Global};

impl Coverage {
    // A band for each of so many instruments, from a number on.
    pub fn new(heap: Global, instruments: usize, first: u64) -> Result<Coverage, AllocError>
        ensures { IfOk result (λ c. (count c ≡ instruments) × ((q : ℕ) (d : Band) → q < instruments → Clear (band_at c q d) first)) }
    {
        let mut bands = Vec::new(heap);
        for _ in 0..instruments {
            bands.push(Band::new(heap, first)?)?;
        }
        Ok(Coverage { bands })
    }

    // The book of a slot has this shade from a number on; without such a slot nothing changes.
    pub fn turn(&mut self, slot: usize, from: u64, shade: Shade) -> Result<(), NoBand>
        ensures answer { MatchResult result (λ _. slot < count self.old) (λ e. (e.slot ≡ slot) × (count self.old ≤ slot)) }
        ensures beside { Beside self.old self.new slot }
        ensures turned { (d : Band) → slot < count self.old → TurnTaken (band_at self.old slot d) (band_at self.new slot d) from (level_of shade) }
    {
        let turned = self.bands.get_mut(slot).ok_or(NoBand { slot })?;
        turned.turn(from, shade);
        Ok(())
    }

    // In a call that brought the highest number heard from one to another, the book of a slot came to this shade. Numbers in
    // between were passed over, so that the book counts as recovering there at best.
    pub fn tell(&mut self, slot: usize, before: u64, heard: u64, shade: Shade) -> Result<(), NoBand>
        ensures answer { MatchResult result (λ _. slot < count self.old) (λ e. (e.slot ≡ slot) × (count self.old ≤ slot)) }
        ensures beside { Beside self.old self.new slot }
        ensures passed { (d : Band) → slot < count self.old → Passed (band_at self.old slot d) (band_at self.new slot d) (min (before + 1) (2 ^ 64 - 1)) heard (level_of shade) }
    {
        let next = before.saturating_add(1);
        if next < heard && shade == Shade::Current {
            self.turn(slot, next, Shade::Recovering)?;
            self.turn(slot, heard, shade)
        } else {
            self.turn(slot, next.min(heard), shade)
        }
    }

    // A snapshot was adopted for a slot at a number; without such a slot nothing changes.
    pub fn adopt(&mut self, slot: usize, number: u64) -> Result<(), NoBand>
        ensures answer { MatchResult result (λ _. slot < count self.old) (λ e. (e.slot ≡ slot) × (count self.old ≤ slot)) }
        ensures beside { Beside self.old self.new slot }
        ensures noted { (d : Band) → slot < count self.old → AdoptionNoted (band_at self.old slot d) (band_at self.new slot d) number }
    {
        let adopted = self.bands.get_mut(slot).ok_or(NoBand { slot })?;
        adopted.adopt(number);
        Ok(())
    }

    // The numbers end with the last one: nothing is told of those behind it.
    pub fn finish(&mut self, last: u64)
        ensures number { count self.new ≡ count self.old }
        ensures turned { (q : ℕ) (d : Band) → q < count self.old → TurnTaken (band_at self.old q d) (band_at self.new q d) (min (last + 1) (2 ^ 64 - 1)) 0 }
    {
        let next = last.saturating_add(1);
        for band in self.bands.iter_mut() {
            band.turn(next, Shade::Blank);
        }
    }
}
