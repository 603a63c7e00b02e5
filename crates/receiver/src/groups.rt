ghost use Rattle.std.specs.Prelude.{◌≡◌, ◌<◌, max, true, length, None, if◌then◌else◌, slice_index_or, slice_set};
ghost use Rattle.message.specs.Views.{piece_meant};
ghost use Rattle.store.specs.Calls.{is_whole};
ghost use Rattle.recovery.specs.declared.marks.Mark.TheVariants.{Stale};
ghost use Rattle.recovery.specs.Reading.{opens, adds};
ghost use Rattle.recovery.specs.Groups.{idle, wanted, adopted, decided, event_step};
ghost use Rattle.recovery.specs.Log.{decided_log, event_log};
ghost use Rattle.recovery.specs.State.{slot_in};
ghost use Rattle.settling.specs.declared.marks.Event.TheVariants.{Whole};
ghost use Rattle.settling.specs.Marks.{comes};
ghost use Rattle.settling.specs.Watched.{watch_of};
ghost use Rattle.receiver.specs.Standings.{opening_of, state_in, attended, bit};

use crate::plain::Plain;
use crate::subscription::Subscription;
use message::message::Piece;
use message::values::HeaderFields;
use recovery::marks::{Group, Mark};
use settling::marks::Event;
use settling::shelf::Shelf;
use store::store::Store;

impl Plain {
    // Whether nothing happens to a whole snapshot of packet n: the book at the slot is not behind it, or it is too old.
    fn idle(&self, slot: usize, n: u64) -> bool
        requires { slot < 64 }
        ensures { result ≡ idle (slice_index_or self.now.marks.at slot Stale) n self.now.places.heard }
    {
        let old = self.places.heard.saturating_sub(n) >= 33;
        match self.marks.mark(slot) {
            Mark::Stale => old,
            Mark::AsOf(m) => n <= m || old,
        }
    }

    // Notes that the book at a slot is a whole snapshot of packet n, so that there is a packet n.
    fn note_adoption(&mut self, slot: usize, n: u64)
        requires { slot < 64 }
        ensures marks { self.new.marks.at ≡ slice_set self.old.marks.at slot (comes (Whole n self.old.places.heard) (slice_index_or self.old.marks.at slot Stale)) }
        ensures heard { self.new.places.heard ≡ max self.old.places.heard n }
        ensures places { self.new.places.at ≡ self.old.places.at }
        ensures others { (self.new.joined ≡ self.old.joined) × (self.new.followed ≡ self.old.followed) × (self.new.pending ≡ self.old.pending) }
    {
        let heard = self.places.heard;
        let _ = self.marks.note(slot, Event::Whole(n, heard));
        self.places.hear(n);
    }
}

impl Plain {
    // Adopts a whole group, unless nothing happens to it: the staged value becomes the book, and all settle.
    fn adopt<S: Store>(
        &mut self,
        store: &mut S,
        sub: &Subscription,
        shelf: Shelf,
        slot: usize,
        g: Group,
    ) -> bool
        requires { (slot ≡ slot_in (watch_of sub.now.watch) g.security) × ((slot < length (watch_of sub.now.watch)) × (is_whole (S.kind (S.setup store.old)) (S.model store.old) ≡ true)) }
        ensures answer { result ≡ wanted (S.kind (S.setup store.old)) (opening_of sub.now) g (state_in (S.kind (S.setup store.old)) sub.now self.old (S.model store.old) shelf.entry.bytes.now) }
        ensures state { state_in (S.kind (S.setup store.old)) sub.now self.new (S.model store.new) shelf.entry.bytes.now ≡ (if wanted (S.kind (S.setup store.old)) (opening_of sub.now) g (state_in (S.kind (S.setup store.old)) sub.now self.old (S.model store.old) shelf.entry.bytes.now) then adopted (S.kind (S.setup store.old)) (opening_of sub.now) g (state_in (S.kind (S.setup store.old)) sub.now self.old (S.model store.old) shelf.entry.bytes.now) else state_in (S.kind (S.setup store.old)) sub.now self.old (S.model store.old) shelf.entry.bytes.now) }
        ensures pending { self.new.pending ≡ self.old.pending }
        ensures stays { S.setup store.new ≡ S.setup store.old }
    {
        if self.idle(slot, g.last) {
            return false;
        }
        if store.adopt(slot).is_err() {
            return false;
        }
        self.note_adoption(slot, g.last);
        self.renew(store, sub, shelf, None);
        true
    }

    // Closes and decides a group, once nothing is owed to it; whether it was adopted.
    fn decide<S: Store>(
        &mut self,
        store: &mut S,
        sub: &Subscription,
        shelf: Shelf,
        slot: usize,
        g: Group,
    ) -> bool
        requires { (slot ≡ slot_in (watch_of sub.now.watch) g.security) × (slot < length (watch_of sub.now.watch)) }
        ensures state { state_in (S.kind (S.setup store.old)) sub.now self.new (S.model store.new) shelf.entry.bytes.now ≡ decided (S.kind (S.setup store.old)) (opening_of sub.now) g (state_in (S.kind (S.setup store.old)) sub.now self.old (S.model store.old) shelf.entry.bytes.now) }
        ensures log { length (decided_log (S.kind (S.setup store.old)) (opening_of sub.now) g (state_in (S.kind (S.setup store.old)) sub.now self.old (S.model store.old) shelf.entry.bytes.now)) ≡ bit result }
        ensures closed { result ≡ true → self.new.pending ≡ None }
        ensures attends { attended (watch_of sub.now.watch) self.old.pending ≡ true → attended (watch_of sub.now.watch) self.new.pending ≡ true }
        ensures stays { S.setup store.new ≡ S.setup store.old }
    {
        if !store.whole() {
            return false;
        }
        self.pending = None;
        self.adopt(store, sub, shelf, slot, g)
    }

    // A header of an instrument closes the open group, and opens one where the instrument is watched and the store can hold it.
    pub(crate) fn begin<S: Store>(
        &mut self,
        store: &mut S,
        sub: &Subscription,
        shelf: Shelf,
        i: u64,
        h: HeaderFields,
    ) -> bool
        ensures state { state_in (S.kind (S.setup store.old)) sub.now self.new (S.model store.new) shelf.entry.bytes.now ≡ event_step (S.kind (S.setup store.old)) (opening_of sub.now) (opens i h) (state_in (S.kind (S.setup store.old)) sub.now self.old (S.model store.old) shelf.entry.bytes.now) }
        ensures log { length (event_log (S.kind (S.setup store.old)) (opening_of sub.now) (opens i h) (state_in (S.kind (S.setup store.old)) sub.now self.old (S.model store.old) shelf.entry.bytes.now)) ≡ bit result }
        ensures attends { attended (watch_of sub.now.watch) self.new.pending ≡ true }
        ensures stays { S.setup store.new ≡ S.setup store.old }
    {
        if let Some(slot) = sub.watch.slot(i) {
            if let Ok(()) = store.stage(&h) {
                let g = Group {
                    security: i,
                    last: h.last,
                };
                self.pending = Some(g);
                return self.decide(store, sub, shelf, slot, g);
            }
        }
        self.pending = None;
        false
    }

    // A piece of an instrument is added to the open group if it is that instrument's; one that does not fit closes the group.
    pub(crate) fn grow<S: Store>(
        &mut self,
        store: &mut S,
        sub: &Subscription,
        shelf: Shelf,
        i: u64,
        p: &Piece,
    ) -> bool
        requires { attended (watch_of sub.now.watch) self.old.pending ≡ true }
        ensures state { state_in (S.kind (S.setup store.old)) sub.now self.new (S.model store.new) shelf.entry.bytes.now ≡ event_step (S.kind (S.setup store.old)) (opening_of sub.now) (adds i (piece_meant p.now)) (state_in (S.kind (S.setup store.old)) sub.now self.old (S.model store.old) shelf.entry.bytes.now) }
        ensures log { length (event_log (S.kind (S.setup store.old)) (opening_of sub.now) (adds i (piece_meant p.now)) (state_in (S.kind (S.setup store.old)) sub.now self.old (S.model store.old) shelf.entry.bytes.now)) ≡ bit result }
        ensures closed { result ≡ true → self.new.pending ≡ None }
        ensures attends { attended (watch_of sub.now.watch) self.new.pending ≡ true }
        ensures stays { S.setup store.new ≡ S.setup store.old }
    {
        let Some(g) = self.pending else {
            return false;
        };
        if i != g.security {
            return false;
        }
        let Some(slot) = sub.watch.slot(i) else {
            return unreachable();
        };
        if store.add(p).is_err() {
            self.pending = None;
            return false;
        }
        self.decide(store, sub, shelf, slot, g)
    }
}
