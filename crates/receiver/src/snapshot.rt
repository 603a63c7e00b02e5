ghost use Rattle.std.specs.Prelude.{◌≡◌, length};
ghost use Rattle.recovery.specs.Steps.{snapshot_answer, snapshot_step};
ghost use Rattle.receiver.specs.Standings.{opening_of, state_in};

use crate::join::Join;
use crate::receiver::Receiver;
use recovery::answers::Snapshot;
use recovery::fault::StreamFault;
use settling::shelf::Shelf;
use store::store::Store;

impl Receiver {
    // Takes a snapshot packet under the present join; the answer tells how many books it adopted. The shelf stays as it is.
    pub fn snapshot<S: Store>(
        &mut self,
        store: &mut S,
        shelf: &[u8],
        join: &Join,
        bytes: &[u8],
    ) -> Result<Snapshot, StreamFault>
        ensures answer { result ≡ snapshot_answer (S.kind (S.setup store.old)) (opening_of self.old.sub) join.now.own (length shelf.now) bytes.now (state_in (S.kind (S.setup store.old)) self.old.sub self.old.plain (S.model store.old) shelf.now) }
        ensures state { state_in (S.kind (S.setup store.old)) self.old.sub self.new.plain (S.model store.new) shelf.now ≡ snapshot_step (S.kind (S.setup store.old)) (opening_of self.old.sub) join.now.own (length shelf.now) bytes.now (state_in (S.kind (S.setup store.old)) self.old.sub self.old.plain (S.model store.old) shelf.now) }
        ensures opening { self.new.sub ≡ self.old.sub }
        ensures stays { S.setup store.new ≡ S.setup store.old }
    {
        let h = self.sub.admit(&self.plain, join.own, shelf, bytes)?;
        if self.plain.again(h) {
            return Ok(Snapshot::Repeat);
        }
        self.plain.note(h);
        let adoptions = self
            .plain
            .follow_bytes(store, &self.sub, Shelf { bytes: shelf }, bytes);
        Ok(Snapshot::Taken(adoptions))
    }
}
