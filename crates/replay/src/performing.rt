ghost use Rattle.std.specs.Prelude.{◌≡◌, ℕ, true, length, if◌then◌else◌};
ghost use Rattle.recovery.specs.Answers.{incremental_answer};
ghost use Rattle.recovery.specs.Incremental.{shelf_after, incremental_step};
ghost use Rattle.recovery.specs.Steps.{snapshot_step, snapshot_answer, question_answer};
ghost use Rattle.recovery.specs.Calls.{step};
ghost use Rattle.recovery.specs.Present.{Guaranteed};
ghost use Rattle.receiver.specs.Standings.{opening_of, plain_of, state_in};
ghost use Rattle.receiver.specs.Joins.{leaving, slot_answer, standing_of};
ghost use Rattle.replay.specs.Requests.{request, shelf_then};
ghost use Rattle.replay.specs.Replies.{of_incremental, of_snapshot, of_standing, reply};

use crate::call::{Answer, Call};
use crate::desk::Desk;
use receiver::receiver::Receiver;
use recovery::answers::Standing;
use recovery::fault::StreamFault;
use recovery::guarantee::recovery_stands;
use store::store::Store;

impl Desk {
    // Brings an incremental packet to the receiver.
    fn take<S: Store>(&mut self, store: &mut S, shelf: &mut [u8], bytes: &[u8]) -> Answer
        ensures answer { result ≡ of_incremental (incremental_answer (opening_of self.old.receiver.sub) (state_in (S.kind (S.setup store.old)) self.old.receiver.sub self.old.receiver.plain (S.model store.old) shelf.old).plain (length shelf.old) bytes.now) }
        ensures shelf { shelf.new ≡ shelf_after (opening_of self.old.receiver.sub) (state_in (S.kind (S.setup store.old)) self.old.receiver.sub self.old.receiver.plain (S.model store.old) shelf.old).plain bytes.now shelf.old }
        ensures state { state_in (S.kind (S.setup store.old)) self.old.receiver.sub self.new.receiver.plain (S.model store.new) shelf.new ≡ incremental_step (S.kind (S.setup store.old)) (opening_of self.old.receiver.sub) (length shelf.old) bytes.now (state_in (S.kind (S.setup store.old)) self.old.receiver.sub self.old.receiver.plain (S.model store.old) shelf.old) }
        ensures opening { self.new.receiver.sub ≡ self.old.receiver.sub }
        ensures stays { S.setup store.new ≡ S.setup store.old }
    {
        Answer::from(self.receiver.incremental(store, shelf, bytes))
    }

    // Brings a snapshot packet to the receiver under the join that is held; with none held it is refused.
    fn follow<S: Store>(&mut self, store: &mut S, shelf: &[u8], bytes: &[u8]) -> Answer
        ensures answer { result ≡ of_snapshot (snapshot_answer (S.kind (S.setup store.old)) (opening_of self.old.receiver.sub) self.old.receiver.sub.own (length shelf.now) bytes.now (state_in (S.kind (S.setup store.old)) self.old.receiver.sub self.old.receiver.plain (S.model store.old) shelf.now)) }
        ensures state { state_in (S.kind (S.setup store.old)) self.old.receiver.sub self.new.receiver.plain (S.model store.new) shelf.now ≡ snapshot_step (S.kind (S.setup store.old)) (opening_of self.old.receiver.sub) self.old.receiver.sub.own (length shelf.now) bytes.now (state_in (S.kind (S.setup store.old)) self.old.receiver.sub self.old.receiver.plain (S.model store.old) shelf.now) }
        ensures opening { self.new.receiver.sub ≡ self.old.receiver.sub }
        ensures stays { S.setup store.new ≡ S.setup store.old }
    {
        match &self.held {
            Some(join) => Answer::from(self.receiver.snapshot(store, shelf, join, bytes)),
            None => Answer::Refused(StreamFault::Join),
        }
    }

    // Performs one call. What it answers and leaves is the machine's; and by the recovery guarantee every book that the receiver
    // now shows is the publisher's, the same at every receiver with equal reach, and current once a snapshot has been adopted and
    // no packet since is missing.
    pub fn perform<S: Store>(&mut self, store: &mut S, shelf: &mut [u8], call: Call) -> Answer
        ensures answer { result ≡ reply (S.kind (S.setup store.old)) (opening_of self.old.receiver.sub) (state_in (S.kind (S.setup store.old)) self.old.receiver.sub self.old.receiver.plain (S.model store.old) shelf.old) (request self.old.receiver.sub.own (length shelf.old) call.entry) }
        ensures state { state_in (S.kind (S.setup store.old)) self.old.receiver.sub self.new.receiver.plain (S.model store.new) shelf.new ≡ step (S.kind (S.setup store.old)) (opening_of self.old.receiver.sub) (state_in (S.kind (S.setup store.old)) self.old.receiver.sub self.old.receiver.plain (S.model store.old) shelf.old) (request self.old.receiver.sub.own (length shelf.old) call.entry) }
        ensures shelf { shelf.new ≡ shelf_then (opening_of self.old.receiver.sub) (state_in (S.kind (S.setup store.old)) self.old.receiver.sub self.old.receiver.plain (S.model store.old) shelf.old).plain (request self.old.receiver.sub.own (length shelf.old) call.entry) shelf.old }
        ensures opening { self.new.receiver.sub ≡ self.old.receiver.sub }
        ensures stays { S.setup store.new ≡ S.setup store.old }
        ensures guarantee { (i : ℕ) → Guaranteed (S.kind (S.setup store.old)) (opening_of self.old.receiver.sub) (state_in (S.kind (S.setup store.old)) self.old.receiver.sub self.new.receiver.plain (S.model store.new) shelf.new) i (S.Image (S.setup store.old)) }
    {
        let _ = recovery_stands::<S>();
        match call {
            Call::Incremental(bytes) => self.take(store, shelf, bytes),
            Call::Join => self.enter(),
            Call::Leave => self.part(),
            Call::Snapshot(bytes) => self.follow(store, shelf, bytes),
            Call::Question(instrument) => Answer::from(self.standing(instrument)),
        }
    }

    // How the book of an instrument stands. The recovery guarantee holds of what the receiver, the store and the shelf show.
    pub fn question<S: Store>(
        &self,
        store: &S,
        shelf: &[u8],
        instrument: u64,
    ) -> Result<Standing, StreamFault>
        ensures answer { result ≡ question_answer (opening_of self.now.receiver.sub) instrument (state_in (S.kind (S.setup store.now)) self.now.receiver.sub self.now.receiver.plain (S.model store.now) shelf.now) }
        ensures guarantee { Guaranteed (S.kind (S.setup store.now)) (opening_of self.now.receiver.sub) (state_in (S.kind (S.setup store.now)) self.now.receiver.sub self.now.receiver.plain (S.model store.now) shelf.now) instrument (S.Image (S.setup store.now)) }
    {
        let _ = recovery_stands::<S>();
        self.standing(instrument)
    }

    // How the book of an instrument stands, by the receiver alone.
    fn standing(&self, instrument: u64) -> Result<Standing, StreamFault>
        ensures { result ≡ standing_of self.now.receiver.sub self.now.receiver.plain instrument }
    {
        self.receiver.question(instrument)
    }

    // The slot at which the store shows the value of a watched instrument.
    pub fn slot(&self, instrument: u64) -> Result<usize, StreamFault>
        ensures { result ≡ slot_answer self.now.receiver.sub instrument }
    {
        self.receiver.slot(instrument)
    }

    // The receiver, with a join that was still held given back.
    pub fn close(mut self) -> Receiver
        ensures after { result.plain ≡ (if self.receiver.plain.joined then leaving self.receiver.plain else self.receiver.plain) }
        ensures opening { result.sub ≡ self.receiver.sub }
    {
        let _ = self.part();
        let Desk { receiver, held } = self;
        match held {
            None => receiver,
            Some(_) => unreachable(),
        }
    }
}
