ghost use Rattle.std.specs.Prelude.{◌≡◌, true, length, is_ok};
ghost use Rattle.message.specs.Meaning.{entry_parts};
ghost use Rattle.packet.specs.Rules.{messages, packet_check};
ghost use Rattle.message.specs.Views.{view};
ghost use Rattle.recovery.specs.Reading.{opens_for, entries_for, told};
ghost use Rattle.recovery.specs.Groups.{event_steps, message_steps};
ghost use Rattle.recovery.specs.Log.{event_logs, message_logs};
ghost use Rattle.settling.specs.Watched.{watch_of};
ghost use Rattle.receiver.specs.Standings.{opening_of, state_in, attended, bit};

use crate::plain::Plain;
use crate::subscription::Subscription;
use layout::kinds::EntriesLayout;
use message::fields::{header_fields, security_of};
use message::message::{Message, Piece};
use message::values::HeaderFields;
use packet::checked::Checked;
use packet::group::entries_of;
use settling::shelf::Shelf;
use store::store::Store;

impl Plain {
    // A header, of which an instrument or the fields may be missing; whether its group was adopted.
    fn open_group<S: Store>(
        &mut self,
        store: &mut S,
        sub: &Subscription,
        shelf: Shelf,
        i: Option<u64>,
        h: Option<HeaderFields>,
    ) -> bool
        ensures state { state_in (S.kind (S.setup store.old)) sub.now self.new (S.model store.new) shelf.entry.bytes.now ≡ event_steps (S.kind (S.setup store.old)) (opening_of sub.now) (opens_for i h) (state_in (S.kind (S.setup store.old)) sub.now self.old (S.model store.old) shelf.entry.bytes.now) }
        ensures log { length (event_logs (S.kind (S.setup store.old)) (opening_of sub.now) (opens_for i h) (state_in (S.kind (S.setup store.old)) sub.now self.old (S.model store.old) shelf.entry.bytes.now)) ≡ bit result }
        ensures attends { attended (watch_of sub.now.watch) self.new.pending ≡ true }
        ensures stays { S.setup store.new ≡ S.setup store.old }
    {
        match i.zip(h) {
            Some((id, fields)) => self.begin(store, sub, shelf, id, fields),
            None => {
                self.pending = None;
                false
            }
        }
    }

    // The entries of a message, one by one, until the group is adopted; whether it was.
    fn grow_all<S: Store>(
        &mut self,
        store: &mut S,
        sub: &Subscription,
        shelf: Shelf,
        i: u64,
        l: &EntriesLayout,
        part: &[u8],
    ) -> bool
        requires { attended (watch_of sub.now.watch) self.old.pending ≡ true }
        ensures state { state_in (S.kind (S.setup store.old)) sub.now self.new (S.model store.new) shelf.entry.bytes.now ≡ event_steps (S.kind (S.setup store.old)) (opening_of sub.now) (entries_for i l.now (entry_parts l.now part.now)) (state_in (S.kind (S.setup store.old)) sub.now self.old (S.model store.old) shelf.entry.bytes.now) }
        ensures log { length (event_logs (S.kind (S.setup store.old)) (opening_of sub.now) (entries_for i l.now (entry_parts l.now part.now)) (state_in (S.kind (S.setup store.old)) sub.now self.old (S.model store.old) shelf.entry.bytes.now)) ≡ bit result }
        ensures attends { attended (watch_of sub.now.watch) self.new.pending ≡ true }
        ensures stays { S.setup store.new ≡ S.setup store.old }
    {
        let mut entries = entries_of(l, part);
        while let Some(e) = entries.next() {
            if self.grow(store, sub, shelf, i, &Piece::Entry(l, e)) {
                return true;
            }
        }
        false
    }

    // A message of a snapshot packet; whether it led to an adoption.
    fn tell<S: Store>(
        &mut self,
        store: &mut S,
        sub: &Subscription,
        shelf: Shelf,
        m: &Message,
    ) -> bool
        requires { attended (watch_of sub.now.watch) self.old.pending ≡ true }
        ensures state { state_in (S.kind (S.setup store.old)) sub.now self.new (S.model store.new) shelf.entry.bytes.now ≡ event_steps (S.kind (S.setup store.old)) (opening_of sub.now) (told (view m.now)) (state_in (S.kind (S.setup store.old)) sub.now self.old (S.model store.old) shelf.entry.bytes.now) }
        ensures log { length (event_logs (S.kind (S.setup store.old)) (opening_of sub.now) (told (view m.now)) (state_in (S.kind (S.setup store.old)) sub.now self.old (S.model store.old) shelf.entry.bytes.now)) ≡ bit result }
        ensures attends { attended (watch_of sub.now.watch) self.new.pending ≡ true }
        ensures stays { S.setup store.new ≡ S.setup store.old }
    {
        let id = security_of(m);
        match *m {
            Message::Header(l, part) => self.open_group(
                store,
                sub,
                shelf,
                id,
                header_fields(l, part),
            ),
            Message::Stat(l, part) => match id {
                Some(i) => self.grow(store, sub, shelf, i, &Piece::Stat(l, part)),
                None => false,
            },
            Message::Entries(l, part) => match id {
                Some(i) => self.grow_all(store, sub, shelf, i, l, part),
                None => false,
            },
            Message::Order(_, _)
            | Message::Delete(_, _)
            | Message::Mass(_, _)
            | Message::Empty(_, _)
            | Message::Other(_) => false,
        }
    }

    // Every message of a snapshot packet, in order; the number of adoptions.
    fn follow<S: Store>(
        &mut self,
        store: &mut S,
        sub: &Subscription,
        shelf: Shelf,
        packet: Checked,
    ) -> usize
        requires { attended (watch_of sub.now.watch) self.old.pending ≡ true }
        ensures state { state_in (S.kind (S.setup store.old)) sub.now self.new (S.model store.new) shelf.entry.bytes.now ≡ message_steps (S.kind (S.setup store.old)) (opening_of sub.now) (messages packet.entry.sheet.now packet.entry.bytes.now) (state_in (S.kind (S.setup store.old)) sub.now self.old (S.model store.old) shelf.entry.bytes.now) }
        ensures log { length (message_logs (S.kind (S.setup store.old)) (opening_of sub.now) (messages packet.entry.sheet.now packet.entry.bytes.now) (state_in (S.kind (S.setup store.old)) sub.now self.old (S.model store.old) shelf.entry.bytes.now)) ≡ result }
        ensures attends { attended (watch_of sub.now.watch) self.new.pending ≡ true }
        ensures stays { S.setup store.new ≡ S.setup store.old }
    {
        let mut adoptions = 0;
        let mut walk = packet.walk();
        while let Some(m) = walk.next() {
            if self.tell(store, sub, shelf, &m) {
                adoptions += 1;
            }
        }
        adoptions
    }

    // Every message of a snapshot packet that keeps the rules; the number of adoptions.
    pub(crate) fn follow_bytes<S: Store>(
        &mut self,
        store: &mut S,
        sub: &Subscription,
        shelf: Shelf,
        bytes: &[u8],
    ) -> usize
        requires { (attended (watch_of sub.now.watch) self.old.pending ≡ true) × (is_ok (packet_check sub.now.sheet bytes.now) ≡ true) }
        ensures state { state_in (S.kind (S.setup store.old)) sub.now self.new (S.model store.new) shelf.entry.bytes.now ≡ message_steps (S.kind (S.setup store.old)) (opening_of sub.now) (messages sub.now.sheet bytes.now) (state_in (S.kind (S.setup store.old)) sub.now self.old (S.model store.old) shelf.entry.bytes.now) }
        ensures log { length (message_logs (S.kind (S.setup store.old)) (opening_of sub.now) (messages sub.now.sheet bytes.now) (state_in (S.kind (S.setup store.old)) sub.now self.old (S.model store.old) shelf.entry.bytes.now)) ≡ result }
        ensures attends { attended (watch_of sub.now.watch) self.new.pending ≡ true }
        ensures stays { S.setup store.new ≡ S.setup store.old }
    {
        self.follow(store, sub, shelf, Checked::new(&sub.sheet, bytes))
    }
}
