ghost use Rattle.std.specs.Prelude.{◌≡◌, ◌-◌, length, replicate, slice_index_or};
ghost use Rattle.refusal.specs.Reasons.{number_of};
ghost use Rattle.destinations.specs.Counting.{never, again, refused_noted, all_refused};

use refusal::{Reason, Refusal};

// where something was first refused: the place in the packet, and the record, counted from 1
#[derive(Clone, Copy, Debug, PartialEq, Eq)]
pub struct First {
    pub place: usize,
    pub index: u64,
}

// how often something was refused for one reason, and the first time
#[derive(Clone, Copy, Debug, PartialEq, Eq)]
pub struct Refused {
    pub count: u64,
    pub first: Option<First>,
}

// what was refused for each of the first N reasons, by their numbers
#[derive(Clone, Copy)]
pub struct Refusals<const N: usize> {
    pub(crate) all: [Refused; N],
    ghost each: { length all ≡ N },
}

impl Refused {
    // Nothing refused yet.
    pub fn never() -> Refused
        ensures { result ≡ never }
    {
        Refused {
            count: 0,
            first: None,
        }
    }

    // One more, at that place of that record.
    pub fn again(self, place: usize, index: u64) -> Refused
        ensures { result ≡ again self place index }
    {
        Refused {
            count: self.count.saturating_add(1),
            first: self.first.or(Some(First { place, index })),
        }
    }
}

impl<const N: usize> Refusals<N> {
    // Nothing refused yet.
    pub fn none() -> Refusals<N>
        ensures { result.all ≡ replicate N never }
    {
        Refusals {
            all: [Refused::never(); N],
        }
    }

    // Counts a refusal under its reason, in the record with that index.
    pub fn note(&mut self, refusal: Refusal, index: u64)
        ensures { self.new.all ≡ refused_noted self.old.all refusal index }
    {
        let reason = usize::from(refusal.reason.number()) - 1;
        if reason < self.all.len() {
            self.all[reason] = self.all[reason].again(refusal.place, index);
        }
    }

    // How often something was refused for a reason, and the first time.
    pub fn of(&self, reason: Reason) -> Refused
        ensures { result ≡ slice_index_or self.now.all (number_of reason - 1) never }
    {
        self.all
            .get(usize::from(reason.number()) - 1)
            .copied()
            .unwrap_or(Refused::never())
    }

    // How often something was refused, for whatever reason.
    pub fn total(&self) -> u64
        ensures { result ≡ all_refused self.now.all }
    {
        self.all
            .iter()
            .fold(0, |all: u64, refused| all.saturating_add(refused.count))
    }
}
