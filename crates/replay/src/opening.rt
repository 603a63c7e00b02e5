ghost use Rattle.std.specs.Prelude.{◌≡◌, ℕ, List, length, Ok, Err, MatchResult};
ghost use Rattle.recovery.specs.Answers.{opening_check};
ghost use Rattle.recovery.specs.State.{opened};
ghost use Rattle.receiver.specs.Standings.{opening_of, state_in};

use crate::desk::Desk;
use layout::sheet::Sheet;
use receiver::checks::check_opening;
use receiver::receiver::Receiver;
use recovery::fault::StreamFault;
use store::store::Store;

impl Desk {
    // A desk with a new receiver over a store whose watched slots it freshens, or the refusal of the opening, which leaves the store.
    pub fn open<S: Store>(
        store: &mut S,
        sheet: Sheet,
        channel: u8,
        version: u16,
        own: u64,
        watch: &[u64],
    ) -> Result<Desk, StreamFault>
        ensures opening { MatchResult result (λ d. (opening_check watch.now version (length (S.model store.old).slots) ≡ Ok tt) × (opening_of d.receiver.sub ≡ record { channel = channel; version = version; own = own; watch = watch.now; sheet = sheet })) (λ e. opening_check watch.now version (length (S.model store.old).slots) ≡ Err e) }
        ensures state { MatchResult result (λ d. (bytes : List ℕ) → state_in (S.kind (S.setup store.old)) d.receiver.sub d.receiver.plain (S.model store.new) bytes ≡ opened (S.kind (S.setup store.old)) (opening_of d.receiver.sub) (S.model store.old)) (λ _. store.new ≡ store.old) }
        ensures stays { S.setup store.new ≡ S.setup store.old }
    {
        check_opening(watch, version, store.slots())?;
        let receiver = Receiver::open(store, sheet, channel, version, own, watch);
        Ok(Desk {
            receiver,
            held: None,
        })
    }
}
