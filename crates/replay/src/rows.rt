ghost use Rattle.std.specs.Prelude.{◌≡◌, ◌+◌, ◌<◌, ◌≤◌, [], ◌∷◌, ◌++◌, length, vec_len, vec_capacity, OnErr};
ghost use Rattle.recovery.specs.Calls.{step, run};
ghost use Rattle.receiver.specs.Standings.{opening_of, state_in};
ghost use Rattle.replay.specs.Requests.{request, shelf_then};
ghost use Rattle.replay.specs.Replies.{reply};
ghost use Rattle.replay.specs.Rows.{requests, done, replies, shelf_along};
ghost use Rattle.replay.specs.Histories.{Continues, Recovers};

use crate::call::{Answer, Call};
use crate::desk::Desk;
use recovery::guarantee::recovery_stands;
use std::alloc::AllocError;
use store::store::Store;

impl Desk {
    // Performs the next call of a row, and adds its answer, for which there is room.
    fn perform_next<S: Store>(
        &mut self,
        store: &mut S,
        shelf: &mut [u8],
        call: Call,
        answers: &mut Vec<Answer>,
    )
        requires { vec_len answers.old < vec_capacity answers.old }
        ensures answer { answers.new.items ≡ answers.old.items ++ reply (S.kind (S.setup store.old)) (opening_of self.old.receiver.sub) (state_in (S.kind (S.setup store.old)) self.old.receiver.sub self.old.receiver.plain (S.model store.old) shelf.old) (request self.old.receiver.sub.own (length shelf.old) call.entry) ∷ [] }
        ensures state { state_in (S.kind (S.setup store.old)) self.old.receiver.sub self.new.receiver.plain (S.model store.new) shelf.new ≡ step (S.kind (S.setup store.old)) (opening_of self.old.receiver.sub) (state_in (S.kind (S.setup store.old)) self.old.receiver.sub self.old.receiver.plain (S.model store.old) shelf.old) (request self.old.receiver.sub.own (length shelf.old) call.entry) }
        ensures shelf { shelf.new ≡ shelf_then (opening_of self.old.receiver.sub) (state_in (S.kind (S.setup store.old)) self.old.receiver.sub self.old.receiver.plain (S.model store.old) shelf.old).plain (request self.old.receiver.sub.own (length shelf.old) call.entry) shelf.old }
        ensures opening { self.new.receiver.sub ≡ self.old.receiver.sub }
        ensures stays { S.setup store.new ≡ S.setup store.old }
        ensures room { (vec_len answers.new ≡ vec_len answers.old + 1) × (vec_capacity answers.new ≡ vec_capacity answers.old) }
    {
        let answer = self.perform(store, shelf, call);
        answers.push_reserved(answer);
    }

    // Performs every call of a row, in order; there is room for an answer to each.
    fn perform_each<S: Store>(
        &mut self,
        store: &mut S,
        shelf: &mut [u8],
        calls: &[Call],
        answers: &mut Vec<Answer>,
    )
        requires { vec_len answers.old + length calls.now ≤ vec_capacity answers.old }
        ensures state { state_in (S.kind (S.setup store.old)) self.old.receiver.sub self.new.receiver.plain (S.model store.new) shelf.new ≡ run (S.kind (S.setup store.old)) (opening_of self.old.receiver.sub) (state_in (S.kind (S.setup store.old)) self.old.receiver.sub self.old.receiver.plain (S.model store.old) shelf.old) (requests self.old.receiver.sub.own (length shelf.old) calls.now) }
        ensures answers { answers.new.items ≡ answers.old.items ++ replies (S.kind (S.setup store.old)) (opening_of self.old.receiver.sub) (state_in (S.kind (S.setup store.old)) self.old.receiver.sub self.old.receiver.plain (S.model store.old) shelf.old) (requests self.old.receiver.sub.own (length shelf.old) calls.now) }
        ensures shelf { shelf.new ≡ shelf_along (S.kind (S.setup store.old)) (opening_of self.old.receiver.sub) (state_in (S.kind (S.setup store.old)) self.old.receiver.sub self.old.receiver.plain (S.model store.old) shelf.old) (requests self.old.receiver.sub.own (length shelf.old) calls.now) shelf.old }
        ensures opening { self.new.receiver.sub ≡ self.old.receiver.sub }
        ensures stays { S.setup store.new ≡ S.setup store.old }
    {
        for call in calls {
            self.perform_next(store, shelf, *call, answers);
        }
    }

    // Performs a row of calls, one after the other, and adds their answers. What it answers and leaves is what the machine
    // comes to over that run, so that rows make one history from the opening on; and by the recovery guarantee over that
    // history every book that the receiver now shows is the publisher's, the same at every receiver with equal reach, and
    // current once a snapshot has been adopted and no packet since is missing. Where there is no memory for the answers no call
    // is performed, and all stays as it was.
    pub fn perform_all<S: Store>(
        &mut self,
        store: &mut S,
        shelf: &mut [u8],
        calls: &[Call],
        answers: &mut Vec<Answer>,
    ) -> Result<(), AllocError>
        ensures state { state_in (S.kind (S.setup store.old)) self.old.receiver.sub self.new.receiver.plain (S.model store.new) shelf.new ≡ run (S.kind (S.setup store.old)) (opening_of self.old.receiver.sub) (state_in (S.kind (S.setup store.old)) self.old.receiver.sub self.old.receiver.plain (S.model store.old) shelf.old) (requests self.old.receiver.sub.own (length shelf.old) (done result calls.now)) }
        ensures answers { answers.new.items ≡ answers.old.items ++ replies (S.kind (S.setup store.old)) (opening_of self.old.receiver.sub) (state_in (S.kind (S.setup store.old)) self.old.receiver.sub self.old.receiver.plain (S.model store.old) shelf.old) (requests self.old.receiver.sub.own (length shelf.old) (done result calls.now)) }
        ensures shelf { shelf.new ≡ shelf_along (S.kind (S.setup store.old)) (opening_of self.old.receiver.sub) (state_in (S.kind (S.setup store.old)) self.old.receiver.sub self.old.receiver.plain (S.model store.old) shelf.old) (requests self.old.receiver.sub.own (length shelf.old) (done result calls.now)) shelf.old }
        ensures opening { self.new.receiver.sub ≡ self.old.receiver.sub }
        ensures stays { S.setup store.new ≡ S.setup store.old }
        ensures refused { OnErr result ((self.new ≡ self.old) × (store.new ≡ store.old)) }
        ensures history { Continues (S.kind (S.setup store.old)) (opening_of self.old.receiver.sub) (state_in (S.kind (S.setup store.old)) self.old.receiver.sub self.old.receiver.plain (S.model store.old) shelf.old) (state_in (S.kind (S.setup store.old)) self.old.receiver.sub self.new.receiver.plain (S.model store.new) shelf.new) (requests self.old.receiver.sub.own (length shelf.old) (done result calls.now)) }
        ensures guarantee { Recovers (S.kind (S.setup store.old)) (opening_of self.old.receiver.sub) (state_in (S.kind (S.setup store.old)) self.old.receiver.sub self.old.receiver.plain (S.model store.old) shelf.old) (state_in (S.kind (S.setup store.old)) self.old.receiver.sub self.new.receiver.plain (S.model store.new) shelf.new) (requests self.old.receiver.sub.own (length shelf.old) (done result calls.now)) (S.Image (S.setup store.old)) }
    {
        let _ = recovery_stands::<S>();
        answers.reserve(calls.len())?;
        self.perform_each(store, shelf, calls, answers);
        Ok(())
    }
}
