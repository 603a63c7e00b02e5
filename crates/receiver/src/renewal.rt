ghost use Rattle.std.specs.Prelude.{◌≡◌, true, length, is_ok, Ok, IfSome};
ghost use Rattle.packet.specs.Rules.{packet_check, packet_head};
ghost use Rattle.recovery.specs.declared.answers.Incremental.TheVariants.{Taken};
ghost use Rattle.recovery.specs.Shelf.{part_of, written};
ghost use Rattle.recovery.specs.Incremental.{settled, received};
ghost use Rattle.receiver.specs.Judged.{judged};
ghost use Rattle.receiver.specs.Standings.{opening_of, state_in};
ghost use Rattle.settling.specs.Placed.{numbers_of, sizes_of};

use crate::checks::head_of;
use crate::plain::Plain;
use crate::subscription::Subscription;
use settling::settle::settle_all;
use settling::shelf::{Shelf, lay};
use store::store::Store;

impl Plain {
    // All watched books settle. The packet `known`, if there is one, is on the shelf and keeps the rules.
    pub(crate) fn renew<S: Store>(
        &mut self,
        store: &mut S,
        sub: &Subscription,
        shelf: Shelf,
        known: Option<u64>,
    )
        requires { IfSome known (λ k. is_ok (packet_check sub.now.sheet (part_of (sizes_of self.old.places.at) shelf.bytes.now k)) ≡ true) }
        ensures state { state_in (S.kind (S.setup store.old)) sub.now self.new (S.model store.new) shelf.entry.bytes.now ≡ settled (S.kind (S.setup store.old)) (opening_of sub.now) (state_in (S.kind (S.setup store.old)) sub.now self.old (S.model store.old) shelf.entry.bytes.now) }
        ensures pending { self.new.pending ≡ self.old.pending }
        ensures places { self.new.places ≡ self.old.places }
        ensures stays { S.setup store.new ≡ S.setup store.old }
    {
        settle_all(
            &mut self.marks,
            store,
            &sub.watch,
            &self.places,
            &sub.sheet,
            shelf,
            known,
        );
    }

    // Takes an incremental packet that is neither refused nor a repeat.
    pub(crate) fn receive<S: Store>(
        &mut self,
        store: &mut S,
        sub: &Subscription,
        shelf: &mut [u8],
        bytes: &[u8],
    )
        requires { judged (opening_of sub.now) self.old.places.heard (numbers_of self.old.places.at) (length shelf.old) bytes.now ≡ Ok Taken }
        ensures shelf { shelf.new ≡ written shelf.old (packet_head bytes.now).number bytes.now }
        ensures state { state_in (S.kind (S.setup store.old)) sub.now self.new (S.model store.new) shelf.new ≡ received (S.kind (S.setup store.old)) (opening_of sub.now) bytes.now (state_in (S.kind (S.setup store.old)) sub.now self.old (S.model store.old) shelf.old) }
        ensures pending { self.new.pending ≡ self.old.pending }
        ensures stays { S.setup store.new ≡ S.setup store.old }
    {
        let q = u64::from(head_of(&sub.sheet, bytes).number);
        lay(shelf, q, bytes);
        self.places.shelve(q, bytes.len());
        self.renew(store, sub, Shelf { bytes: shelf }, Some(q));
    }
}
