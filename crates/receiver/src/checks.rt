ghost use Rattle.std.specs.Prelude.{◌≡◌, true, not, ◌&&◌, [], length, is_ok, Ok, Err, MatchResult, ◌==◌};
ghost use Rattle.recovery.specs.declared.fault.StreamFault.TheVariants.{Join};
ghost use Rattle.packet.specs.Rules.{packet_check, packet_head};
ghost use Rattle.recovery.specs.Answers.{refuses, lawful_version, opening_check, bytes_check, incremental_rules, snapshot_rules, snapshot_check, again, is_next};
ghost use Rattle.receiver.specs.Standings.{opening_of, plain_of};
ghost use Rattle.receiver.specs.Judged.{judged};
ghost use Rattle.receiver.specs.Notes.{noted_plain};
ghost use Rattle.settling.specs.Placed.{numbers_of};

use crate::plain::Plain;
use crate::subscription::Subscription;
use layout::sheet::Sheet;
use packet::checked::Checked;
use packet::head::PacketHead;
use packet::rules::check;
use recovery::answers::Incremental;
use recovery::fault::StreamFault;
use recovery::marks::Followed;
use settling::shelf::Shelf;
use settling::slots::all_different;

fn lawful_version(version: u16) -> bool
    ensures { result ≡ lawful_version version }
{
    0 < version && version < 65535
}

// Whether a receiver can be opened with this watch list and version over a store of so many slots.
pub fn check_opening(watch: &[u64], version: u16, slots: usize) -> Result<(), StreamFault>
    ensures { result ≡ opening_check watch.now version slots }
{
    if watch.len() == 0 || watch.len() > 64 || !all_different(watch) {
        return Err(StreamFault::WatchList);
    }
    if !lawful_version(version) {
        return Err(StreamFault::OwnVersion);
    }
    if slots < watch.len() {
        return Err(StreamFault::Slots);
    }
    Ok(())
}

// The header of a packet that keeps the rules.
pub(crate) fn head_of(sheet: &Sheet, bytes: &[u8]) -> PacketHead
    requires { is_ok (packet_check sheet.now bytes.now) ≡ true }
    ensures { result ≡ packet_head bytes.now }
{
    Checked::new(sheet, bytes).head()
}

impl Subscription {
    // The shelf's length, then the packet itself.
    fn bytes_check(&self, shelf: &[u8], bytes: &[u8]) -> Result<(), StreamFault>
        ensures { result ≡ bytes_check (opening_of self.now) (length shelf.now) bytes.now }
    {
        Shelf::new(shelf)?;
        check(&self.sheet, bytes)?;
        Ok(())
    }

    fn incremental_rules(&self, heard: u64, h: PacketHead) -> Result<(), StreamFault>
        ensures { result ≡ incremental_rules (opening_of self.now) heard h }
    {
        if h.channel != self.channel {
            return Err(StreamFault::Channel);
        }
        if h.version != self.version {
            return Err(StreamFault::Version);
        }
        if h.number == 0 {
            return Err(StreamFault::Number);
        }
        if u64::from(h.number) + 32 <= heard {
            return Err(StreamFault::Late);
        }
        Ok(())
    }

    fn snapshot_rules(&self, h: PacketHead) -> Result<(), StreamFault>
        ensures { result ≡ snapshot_rules (opening_of self.now) h }
    {
        if h.channel != self.channel {
            return Err(StreamFault::Channel);
        }
        if !lawful_version(h.version) {
            return Err(StreamFault::Version);
        }
        if h.number == 0 {
            return Err(StreamFault::Number);
        }
        Ok(())
    }

    // Whether a join that carries the number `own` is the receiver's present one.
    pub(crate) fn join_check(&self, joined: bool, own: u64) -> Result<(), StreamFault>
        ensures { result ≡ refuses (not (joined && own == self.now.own)) Join }
    {
        if !joined || own != self.own {
            return Err(StreamFault::Join);
        }
        Ok(())
    }

    // The header of a snapshot packet that a call may bring under this join.
    pub(crate) fn admit(
        &self,
        plain: &Plain,
        own: u64,
        shelf: &[u8],
        bytes: &[u8],
    ) -> Result<PacketHead, StreamFault>
        ensures { MatchResult result (λ h. (snapshot_check (opening_of self.now) (plain_of self.now.sheet plain.now []) own (length shelf.now) bytes.now ≡ Ok tt) × (h ≡ packet_head bytes.now)) (λ e. snapshot_check (opening_of self.now) (plain_of self.now.sheet plain.now []) own (length shelf.now) bytes.now ≡ Err e) }
    {
        self.join_check(plain.joined, own)?;
        self.bytes_check(shelf, bytes)?;
        let h = head_of(&self.sheet, bytes);
        self.snapshot_rules(h)?;
        Ok(h)
    }

    // What becomes of an incremental packet.
    pub(crate) fn judge(
        &self,
        plain: &Plain,
        shelf: &[u8],
        bytes: &[u8],
    ) -> Result<Incremental, StreamFault>
        ensures { result ≡ judged (opening_of self.now) plain.now.places.heard (numbers_of plain.now.places.at) (length shelf.now) bytes.now }
    {
        self.bytes_check(shelf, bytes)?;
        let h = head_of(&self.sheet, bytes);
        self.incremental_rules(plain.places.heard, h)?;
        if plain.places.shelved(u64::from(h.number)) {
            return Ok(Incremental::Repeat);
        }
        Ok(Incremental::Taken)
    }
}

impl Plain {
    // Whether a snapshot packet with this header has been taken already.
    pub(crate) fn again(&self, h: PacketHead) -> bool
        ensures { result ≡ again self.now.followed h.version h.number }
    {
        self.followed
            .is_some_and(|f| h.version == f.loop_number && h.number <= f.last)
    }

    // Notes a snapshot packet, which closes the open group unless it is the one that is due.
    pub(crate) fn note(&mut self, h: PacketHead)
        ensures { self.new ≡ noted_plain h self.old }
    {
        if !self.is_next(h) {
            self.pending = None;
        }
        self.followed = Some(Followed {
            loop_number: h.version,
            last: h.number,
        });
    }

    // Whether a snapshot packet with this header is the one that is due.
    fn is_next(&self, h: PacketHead) -> bool
        ensures { result ≡ is_next self.now.followed h.version h.number }
    {
        self.followed.is_some_and(|f| h.version == f.loop_number
            && u64::from(h.number) == u64::from(f.last) + 1)
    }
}
