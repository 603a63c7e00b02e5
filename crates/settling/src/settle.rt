ghost use Rattle.std.specs.Prelude.{◌≡◌, ℕ, ◌+◌, ◌^◌, ◌<◌, ◌≤◌, true, false, length, is_ok, IfSome, slice_index_or};
ghost use Rattle.packet.specs.Rules.{packet_check};
ghost use Rattle.recovery.specs.declared.marks.Mark.TheVariants.{Stale};
ghost use Rattle.recovery.specs.Shelf.{reading, part_of, shelf_of};
ghost use Rattle.recovery.specs.Books.{settle};
ghost use Rattle.settling.specs.Watched.{watch_of};
ghost use Rattle.settling.specs.Marks.{stands};
ghost use Rattle.settling.specs.Passes.{pass};
ghost use Rattle.settling.specs.Each.{Each, Low};
ghost use Rattle.settling.specs.Placed.{numbers_of, sizes_of};

use crate::marks::Event;
use crate::places::Places;
use crate::shelf::Shelf;
use crate::steps::{note_all, walk};
use crate::table::Marks;
use crate::watch::Watch;
use layout::sheet::Sheet;
use packet::checked::Checked;
use packet::rules::check;
use recovery::marks::Mark;
use store::store::Store;

// The lowest number that a book stands at, or `heard` where none stands below it.
fn lowest(marks: &Marks, w: &Watch, heard: u64) -> u64
    ensures top { result ≤ heard }
    ensures low { (q : ℕ) → q < length (watch_of w.now) → Low result (slice_index_or marks.now.at q Stale) }
{
    let watched = &marks.at[..w.count];
    let mut low = heard;
    for mark in watched {
        if let Mark::AsOf(n) = *mark {
            low = low.min(n);
        }
    }
    low
}

// Whether a watched book stands at n; where the answer is no, none does.
fn stood(marks: &Marks, w: &Watch, n: u64) -> bool
    ensures { result ≡ false → (q : ℕ) → q < length (watch_of w.now) → stands n (slice_index_or marks.now.at q Stale) ≡ false }
{
    marks.at[..w.count].contains(&Mark::AsOf(n))
}

fn passes(sheet: &Sheet, part: &[u8]) -> bool
    ensures { result ≡ is_ok (packet_check sheet.now part.now) }
{
    check(sheet, part).is_ok()
}

// The packet after n, whose bytes these are; `known` where they are known to keep the rules.
fn take<S: Store>(
    marks: &mut Marks,
    store: &mut S,
    w: &Watch,
    n: u64,
    sheet: &Sheet,
    part: &[u8],
    known: bool,
)
    requires { (n + 1 < 2 ^ 64) × ((known ≡ true → is_ok (packet_check sheet.now part.now) ≡ true)) }
    ensures books { Each (S.kind (S.setup store.old)) (watch_of w.now) (pass n (reading sheet.now part.now)) marks.old.at (S.model store.old) marks.new.at (S.model store.new) }
    ensures stays { S.setup store.new ≡ S.setup store.old }
{
    if known || passes(sheet, part) {
        walk(marks, store, w, n, Checked::new(sheet, part));
        note_all(marks, store, w, Event::Taken(n));
    } else {
        note_all(marks, store, w, Event::Spoilt(n));
    }
}

// All settle. The packet `known`, if there is one, is on the shelf and keeps the rules.
pub fn settle_all<S: Store>(
    marks: &mut Marks,
    store: &mut S,
    w: &Watch,
    places: &Places,
    sheet: &Sheet,
    shelf: Shelf,
    known: Option<u64>,
)
    requires { IfSome known (λ k. is_ok (packet_check sheet.now (part_of (sizes_of places.now.at) shelf.bytes.now k)) ≡ true) }
    ensures books { Each (S.kind (S.setup store.old)) (watch_of w.now) (λ k i x. settle k places.now.heard (shelf_of sheet.now places.now.heard (numbers_of places.now.at) (sizes_of places.now.at) shelf.entry.bytes.now) i x) marks.old.at (S.model store.old) marks.new.at (S.model store.new) }
    ensures stays { S.setup store.new ≡ S.setup store.old }
{
    let heard = places.heard;
    let low = lowest(marks, w, heard);
    for n in low.max(heard.saturating_sub(32))..heard {
        let k = n + 1;
        if !places.shelved(k) || !stood(marks, w, n) {
            continue;
        }
        take(
            marks,
            store,
            w,
            n,
            sheet,
            places.part(shelf, k),
            known == Some(k),
        );
    }
    // a book stands no lower than at first, so that none is too far behind where none was
    if heard.saturating_sub(low) >= 33 {
        note_all(marks, store, w, Event::Aged(heard));
    }
}
