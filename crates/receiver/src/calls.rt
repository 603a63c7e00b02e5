ghost use Rattle.std.specs.Prelude.{◌≡◌, ℕ, List, [], length};
ghost use Rattle.recovery.specs.Answers.{incremental_answer, join_check, present_join, standing};
ghost use Rattle.recovery.specs.Incremental.{shelf_after, incremental_step};
ghost use Rattle.recovery.specs.Updates.{when_ok};
ghost use Rattle.receiver.specs.Standings.{opening_of, plain_of, state_in};
ghost use Rattle.receiver.specs.Joins.{join_answer, joining, leaving, leave_answer, standing_of, slot_answer};

use crate::join::{Join, Left};
use crate::receiver::Receiver;
use recovery::answers::{Incremental, Sign, Standing};
use recovery::fault::StreamFault;
use recovery::marks::Mark;
use store::store::Store;

// How a book with this mark stands.
pub(crate) fn standing(heard: u64, mark: Mark) -> Standing
    ensures { result ≡ standing heard mark }
{
    match mark {
        Mark::Stale => Standing {
            sign: Sign::Stale,
            number: 0,
            heard,
        },
        Mark::AsOf(n) => {
            let sign = if n == heard {
                Sign::Current
            } else {
                Sign::Recovering
            };
            Standing {
                sign,
                number: n,
                heard,
            }
        }
    }
}

impl Receiver {
    // Takes an incremental packet: it is laid on the shelf, and all watched books settle.
    pub fn incremental<S: Store>(
        &mut self,
        store: &mut S,
        shelf: &mut [u8],
        bytes: &[u8],
    ) -> Result<Incremental, StreamFault>
        ensures answer { result ≡ incremental_answer (opening_of self.old.sub) (plain_of self.old.sub.sheet self.old.plain shelf.old) (length shelf.old) bytes.now }
        ensures shelf { shelf.new ≡ shelf_after (opening_of self.old.sub) (plain_of self.old.sub.sheet self.old.plain shelf.old) bytes.now shelf.old }
        ensures state { state_in (S.kind (S.setup store.old)) self.old.sub self.new.plain (S.model store.new) shelf.new ≡ incremental_step (S.kind (S.setup store.old)) (opening_of self.old.sub) (length shelf.old) bytes.now (state_in (S.kind (S.setup store.old)) self.old.sub self.old.plain (S.model store.old) shelf.old) }
        ensures opening { self.new.sub ≡ self.old.sub }
        ensures stays { S.setup store.new ≡ S.setup store.old }
    {
        match self.sub.judge(&self.plain, shelf, bytes)? {
            Incremental::Repeat => Ok(Incremental::Repeat),
            Incremental::Taken => {
                self.plain.receive(store, &self.sub, shelf, bytes);
                Ok(Incremental::Taken)
            }
        }
    }

    // Gives the join under which snapshot packets are brought.
    pub fn join(&mut self) -> Result<Join, StreamFault>
        ensures answer { result ≡ join_answer self.old.sub (plain_of self.old.sub.sheet self.old.plain []) }
        ensures after { self.new.plain ≡ when_ok (join_check (plain_of self.old.sub.sheet self.old.plain [])) (joining self.old.plain) self.old.plain }
        ensures opening { self.new.sub ≡ self.old.sub }
    {
        if self.plain.joined {
            return Err(StreamFault::Join);
        }
        self.plain.joined = true;
        Ok(Join { own: self.sub.own })
    }

    // Takes the join back, closes the open group and forgets the loop; a refused leave hands the join back.
    pub fn leave(&mut self, join: Join) -> Result<(), Left>
        ensures answer { result ≡ leave_answer self.old.sub (plain_of self.old.sub.sheet self.old.plain []) join }
        ensures after { self.new.plain ≡ when_ok (present_join (opening_of self.old.sub) (plain_of self.old.sub.sheet self.old.plain []) join.own) (leaving self.old.plain) self.old.plain }
        ensures opening { self.new.sub ≡ self.old.sub }
    {
        match self.sub.join_check(self.plain.joined, join.own) {
            Err(fault) => Err(Left { join, fault }),
            Ok(()) => {
                let Join { own: _ } = join;
                self.plain.joined = false;
                self.plain.followed = None;
                self.plain.pending = None;
                Ok(())
            }
        }
    }

    // The slot of a watched instrument, at which the store shows its value.
    pub fn slot(&self, instrument: u64) -> Result<usize, StreamFault>
        ensures { result ≡ slot_answer self.now.sub instrument }
    {
        self.sub
            .watch
            .slot(instrument)
            .ok_or(StreamFault::Instrument)
    }

    // How the book of an instrument stands.
    pub fn question(&self, instrument: u64) -> Result<Standing, StreamFault>
        ensures { result ≡ standing_of self.now.sub self.now.plain instrument }
    {
        let slot = self.slot(instrument)?;
        Ok(standing(self.plain.places.heard, self.plain.marks.mark(slot)))
    }
}
