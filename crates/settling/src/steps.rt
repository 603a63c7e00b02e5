ghost use Rattle.std.specs.Prelude.{◌≡◌, ◌<◌, length};
ghost use Rattle.packet.specs.Rules.{messages};
ghost use Rattle.message.specs.Views.{view};
ghost use Rattle.recovery.specs.Reading.{is_change};
ghost use Rattle.settling.specs.Watched.{watch_of};
ghost use Rattle.settling.specs.Marks.{Small};
ghost use Rattle.settling.specs.Passes.{noted, heeded, feed, feeds};
ghost use Rattle.settling.specs.Each.{Each, Puts, book_at, kind_in};

use crate::marks::Event;
use crate::notes::stands;
use crate::table::Marks;
use crate::watch::Watch;
use message::message::Message;
use packet::checked::Checked;
use store::store::Store;

// Whether a message can change a book.
fn is_change(m: &Message) -> bool
    ensures { result ≡ is_change (view m.now).layout }
{
    matches!(
        *m,
        Message::Order(_, _)
            | Message::Delete(_, _)
            | Message::Mass(_, _)
            | Message::Empty(_, _)
            | Message::Stat(_, _)
    )
}

// What an event makes of the book at a slot.
fn note<S: Store>(marks: &mut Marks, store: &mut S, slot: usize, e: Event)
    requires { (slot < 64) × (Small e) }
    ensures book { Puts (S.kind (S.setup store.old)) slot (noted e (kind_in (S.kind (S.setup store.old)) (S.model store.old) slot) 0 (book_at (S.kind (S.setup store.old)) marks.old.at (S.model store.old) slot)) marks.old.at (S.model store.old) marks.new.at (S.model store.new) }
    ensures stays { S.setup store.new ≡ S.setup store.old }
{
    if marks.note(slot, e) {
        let _ = store.freshen(slot);
    }
}

// What an event makes of every watched book.
pub fn note_all<S: Store>(marks: &mut Marks, store: &mut S, w: &Watch, e: Event)
    requires { Small e }
    ensures books { Each (S.kind (S.setup store.old)) (watch_of w.now) (noted e) marks.old.at (S.model store.old) marks.new.at (S.model store.new) }
    ensures stays { S.setup store.new ≡ S.setup store.old }
{
    // kept: the number of a slot goes to the marks and to the store alike
    for slot in 0..w.count {
        note(marks, store, slot, e);
    }
}

// A message for the instrument at a slot.
fn heed<S: Store>(marks: &mut Marks, store: &mut S, n: u64, slot: usize, m: &Message)
    requires { slot < 64 }
    ensures book { Puts (S.kind (S.setup store.old)) slot (heeded n (view m.now) (kind_in (S.kind (S.setup store.old)) (S.model store.old) slot) (book_at (S.kind (S.setup store.old)) marks.old.at (S.model store.old) slot)) marks.old.at (S.model store.old) marks.new.at (S.model store.new) }
    ensures stays { S.setup store.new ≡ S.setup store.old }
{
    if is_change(m) && stands(marks.mark(slot), n) {
        if store.apply(slot, m).is_err() {
            note(marks, store, slot, Event::Misfit);
        }
    }
}

// A message of the packet after n.
fn hand<S: Store>(marks: &mut Marks, store: &mut S, w: &Watch, n: u64, m: &Message)
    ensures books { Each (S.kind (S.setup store.old)) (watch_of w.now) (feed n (view m.now)) marks.old.at (S.model store.old) marks.new.at (S.model store.new) }
    ensures stays { S.setup store.new ≡ S.setup store.old }
{
    if let Some(slot) = w.named(m) {
        heed(marks, store, n, slot, m);
    }
}

// Every message of the packet after n, in order.
pub fn walk<S: Store>(marks: &mut Marks, store: &mut S, w: &Watch, n: u64, packet: Checked)
    ensures books { Each (S.kind (S.setup store.old)) (watch_of w.now) (feeds n (messages packet.entry.sheet.now packet.entry.bytes.now)) marks.old.at (S.model store.old) marks.new.at (S.model store.new) }
    ensures stays { S.setup store.new ≡ S.setup store.old }
{
    let mut walk = packet.walk();
    while let Some(m) = walk.next() {
        hand(marks, store, w, n, &m);
    }
}
