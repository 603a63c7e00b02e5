ghost use Rattle.std.specs.Prelude.{◌≡◌, ℕ, ◌≤◌, false, List, length, None, if◌then◌else◌, Ok, nat_lt, slice_index_or};
ghost use Rattle.store.specs.Calls.{value_at};
ghost use Rattle.recovery.specs.declared.marks.Mark.TheVariants.{Stale, AsOf};
ghost use Rattle.recovery.specs.Answers.{opening_check};
ghost use Rattle.recovery.specs.State.{rest_of, opened};
ghost use Rattle.receiver.specs.Standings.{opening_of, state_in};

use crate::plain::Plain;
use crate::receiver::Receiver;
use crate::subscription::Subscription;
use layout::sheet::Sheet;
use recovery::marks::Mark;
use settling::places::Places;
use settling::table::Marks;
use settling::watch::Watch;
use store::store::Store;

// The marks of a new receiver: the first n books are as of 0.
fn fresh_marks(n: usize) -> Marks
    requires { n ≤ 64 }
    ensures { (q : ℕ) → slice_index_or result.at q Stale ≡ (if nat_lt q n then AsOf 0 else Stale) }
{
    let mut at = [Mark::Stale; 64];
    at[..n].fill(Mark::AsOf(0));
    Marks { at }
}

// Freshens the first n slots.
fn freshen_all<S: Store>(store: &mut S, n: usize)
    ensures values { (q : ℕ) → value_at (S.kind (S.setup store.old)) (S.model store.new) q ≡ (if nat_lt q n then (S.kind (S.setup store.old)).fresh else value_at (S.kind (S.setup store.old)) (S.model store.old) q) }
    ensures rest { rest_of (S.kind (S.setup store.old)) (S.model store.old) ≡ rest_of (S.kind (S.setup store.old)) (S.model store.new) }
    ensures stays { S.setup store.new ≡ S.setup store.old }
{
    for p in 0..n {
        let _ = store.freshen(p);
    }
}

// The plain part of a new receiver of n instruments.
fn new_plain(n: usize) -> Plain
    requires { n ≤ 64 }
    ensures marks { (q : ℕ) → slice_index_or result.marks.at q Stale ≡ (if nat_lt q n then AsOf 0 else Stale) }
    ensures others { (result.places.heard ≡ 0) × (result.joined ≡ false) × (result.followed ≡ None) × (result.pending ≡ None) }
{
    Plain {
        places: Places::empty(),
        marks: fresh_marks(n),
        joined: false,
        followed: None,
        pending: None,
    }
}

impl Receiver {
    // A receiver that `check_opening` has passed, over a store whose watched slots it freshens.
    pub fn open<S: Store>(
        store: &mut S,
        sheet: Sheet,
        channel: u8,
        version: u16,
        own: u64,
        watch: &[u64],
    ) -> Receiver
        requires { opening_check watch.now version (length (S.model store.old).slots) ≡ Ok tt }
        ensures opening { opening_of result.sub ≡ record { channel = channel; version = version; own = own; watch = watch.now; sheet = sheet } }
        ensures state { (bytes : List ℕ) → state_in (S.kind (S.setup store.old)) result.sub result.plain (S.model store.new) bytes ≡ opened (S.kind (S.setup store.old)) (opening_of result.sub) (S.model store.old) }
        ensures stays { S.setup store.new ≡ S.setup store.old }
    {
        freshen_all(store, watch.len());
        Receiver {
            sub: Subscription {
                channel,
                version,
                own,
                watch: Watch::new(watch),
                sheet,
            },
            plain: new_plain(watch.len()),
        }
    }
}
