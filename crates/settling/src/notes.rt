ghost use Rattle.std.specs.Prelude.{◌≡◌, ◌<◌, slice_index_or, slice_set};
ghost use Rattle.recovery.specs.declared.marks.Mark.TheVariants.{Stale};
ghost use Rattle.settling.specs.Marks.{stands, comes, falls, Small};

use crate::marks::Event;
use crate::table::Marks;
use recovery::marks::Mark;

// Whether a book stands at n.
pub fn stands(x: Mark, n: u64) -> bool
    ensures { result ≡ stands n x }
{
    x == Mark::AsOf(n)
}

// What an event makes of a mark.
fn comes(e: Event, x: Mark) -> Mark
    requires { Small e }
    ensures { result ≡ comes e x }
{
    match (e, x) {
        (Event::Whole(n, heard), Mark::Stale) => if heard.saturating_sub(n) >= 33 {
            Mark::Stale
        } else {
            Mark::AsOf(n)
        },
        (Event::Whole(n, heard), Mark::AsOf(m)) => if n <= m || heard.saturating_sub(n) >= 33 {
            Mark::AsOf(m)
        } else {
            Mark::AsOf(n)
        },
        (_, Mark::Stale) => Mark::Stale,
        (Event::Taken(n), Mark::AsOf(m)) => if m == n {
            Mark::AsOf(n + 1)
        } else {
            Mark::AsOf(m)
        },
        (Event::Spoilt(n), Mark::AsOf(m)) => if m == n { Mark::Stale } else { Mark::AsOf(m) },
        (Event::Misfit, Mark::AsOf(_)) => Mark::Stale,
        (Event::Aged(heard), Mark::AsOf(m)) => if heard.saturating_sub(m) >= 33 {
            Mark::Stale
        } else {
            Mark::AsOf(m)
        },
    }
}

// Whether a book that stood somewhere got stale.
fn falls(x: Mark, y: Mark) -> bool
    ensures { result ≡ falls x y }
{
    matches!((x, y), (Mark::AsOf(_), Mark::Stale))
}

// Notes in a mark what an event makes of it, and tells whether it got stale.
fn meet(mark: &mut Mark, e: Event) -> bool
    requires { Small e }
    ensures value { result ≡ falls mark.old (comes e mark.old) }
    ensures after { mark.new ≡ comes e mark.old }
{
    let was = *mark;
    let is = comes(e, was);
    *mark = is;
    falls(was, is)
}

impl Marks {
    // The mark of a slot.
    pub fn mark(&self, slot: usize) -> Mark
        requires { slot < 64 }
        ensures { result ≡ slice_index_or self.now.at slot Stale }
    {
        self.at[slot]
    }

    // Notes at a slot what an event makes of its mark, and tells whether it got stale.
    pub fn note(&mut self, slot: usize, e: Event) -> bool
        requires { (slot < 64) × (Small e) }
        ensures value { result ≡ falls (slice_index_or self.old.at slot Stale) (comes e (slice_index_or self.old.at slot Stale)) }
        ensures after { self.new.at ≡ slice_set self.old.at slot (comes e (slice_index_or self.old.at slot Stale)) }
    {
        meet(&mut self.at[slot], e)
    }
}
