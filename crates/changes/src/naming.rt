ghost use Rattle.std.specs.Prelude.{◌≡◌, ℕ, ◌<◌, ◌≤◌, length, replicate, IfSome, slice_index};
ghost use Rattle.message.specs.Meaning.{security};
ghost use Rattle.packet.specs.Rules.{messages_from};
ghost use Rattle.message.specs.Views.{view};
ghost use Rattle.settling.specs.Watched.{watch_of};
ghost use Rattle.settling.specs.Slots.{slot_named};
ghost use Rattle.changes.specs.Naming.{depth_in, latest_at, deepest_at, latest_after, deepest_after};

use crate::named::Named;
use message::fields::{header_fields, order_fields};
use message::message::Message;
use packet::checked::Walk;
use settling::watch::Watch;

// The place that a message says a side has.
fn depth_in(message: &Message) -> u64
    ensures { result ≡ depth_in (view message.now).layout (view message.now).bytes }
{
    match *message {
        Message::Order(l, part) => order_fields(l, part).map_or(0, |f| f.position),
        Message::Header(l, part) => header_fields(l, part).map_or(0, |f| f.bids.max(f.offers)),
        Message::Delete(_, _)
        | Message::Mass(_, _)
        | Message::Empty(_, _)
        | Message::Stat(_, _)
        | Message::Entries(_, _)
        | Message::Other(_) => 0,
    }
}

impl Named {
    // No packet yet.
    pub fn new() -> Named
        ensures { (result.latest ≡ replicate 64 0) × (result.deepest ≡ 0) }
    {
        Named {
            latest: [0; 64],
            deepest: 0,
        }
    }

    // Notes one message of the packet with that number.
    fn message(&mut self, watch: &Watch, message: &Message, number: u64)
        ensures latest { self.new.latest ≡ latest_at self.old.latest (slot_named (watch_of watch.now) (security (view message.now))) number }
        ensures deepest { self.new.deepest ≡ deepest_at self.old.deepest (slot_named (watch_of watch.now) (security (view message.now))) (depth_in (view message.now).layout (view message.now).bytes) }
    {
        if let Some(slot) = watch.named(message) {
            self.latest[slot] = self.latest[slot].max(number);
            self.deepest = self.deepest.max(depth_in(message));
        }
    }

    // Notes which watched instruments the messages name that a walk over the packet with that number has still to hand out.
    pub fn note(&mut self, watch: &Watch, mut walk: Walk, number: u64)
        ensures latest { self.new.latest ≡ latest_after (watch_of watch.now) self.old.latest (messages_from walk.entry.sheet.now 0 walk.entry.rest.now) number }
        ensures deepest { self.new.deepest ≡ deepest_after (watch_of watch.now) self.old.deepest (messages_from walk.entry.sheet.now 0 walk.entry.rest.now) }
    {
        while let Some(message) = walk.next() {
            self.message(watch, &message, number);
        }
    }

    // The highest number of a packet that names the instrument of a slot, or 0.
    // kept: packets are numbered from 1, and callers only ask whether a number is above another, which no packet never is
    pub fn latest_of(&self, slot: usize) -> u64
        ensures { result ≡ slice_index self.now.latest slot }
    {
        self.latest.get(slot).copied().unwrap_or(0)
    }
}
