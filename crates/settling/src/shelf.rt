ghost use Rattle.std.specs.Prelude.{◌≡◌, ◌%◌, ◌≤◌, max, length, replicate, Ok, Err, MatchResult, slice_index, slice_set};
ghost use Rattle.recovery.specs.Answers.{shelf_check};
ghost use Rattle.recovery.specs.Shelf.{shelved, part_of, written};
ghost use Rattle.settling.specs.Placed.{numbers_of, sizes_of};

use crate::places::{Place, Places};
use recovery::fault::StreamFault;

// the bytes of a shelf, which are enough for its 32 places
#[derive(Clone, Copy)]
pub struct Shelf<'a> {
    pub bytes: &'a [u8],
    ghost long: { 44800 ≤ length bytes.now },
}

impl<'a> Shelf<'a> {
    // The shelf in these bytes, if they are enough.
    pub fn new(bytes: &'a [u8]) -> Result<Shelf<'a>, StreamFault>
        ensures { MatchResult result (λ s. (shelf_check (length bytes.now) ≡ Ok tt) × (s.bytes.now ≡ bytes.now)) (λ e. shelf_check (length bytes.now) ≡ Err e) }
    {
        if bytes.len() < 44800 {
            return Err(StreamFault::Shelf(bytes.len()));
        }
        Ok(Shelf { bytes })
    }
}

impl Places {
    // Nothing heard, and nothing on the shelf.
    pub fn empty() -> Places
        ensures { (result.heard ≡ 0) × (numbers_of result.at ≡ replicate 32 0) × (sizes_of result.at ≡ replicate 32 0) }
    {
        Places {
            heard: 0,
            at: [Place { number: 0, size: 0 }; 32],
        }
    }

    // Whether packet k is on the shelf.
    pub fn shelved(&self, k: u64) -> bool
        ensures { result ≡ shelved self.now.heard (numbers_of self.now.at) k }
    {
        k > 0 && self.at[(k % 32) as usize].number == k && self.heard.saturating_sub(k) < 32
    }

    // The size of what lies at the place of packet k.
    fn size(&self, k: u64) -> usize
        ensures value { result ≡ slice_index (sizes_of self.now.at) (k % 32) }
        ensures small { result ≤ 1400 }
    {
        self.at[(k % 32) as usize].size
    }

    // The bytes at the place of packet k.
    pub fn part<'a>(&self, shelf: Shelf<'a>, k: u64) -> &'a [u8]
        ensures { result.now ≡ part_of (sizes_of self.now.at) shelf.entry.bytes.now k }
    {
        let p = (k % 32) as usize;
        &shelf.bytes[p * 1400..p * 1400 + self.size(k)]
    }

    // Notes packet q, of n bytes, at its place.
    pub fn shelve(&mut self, q: u64, n: usize)
        requires { n ≤ 1400 }
        ensures { (self.new.heard ≡ max self.old.heard q) × (numbers_of self.new.at ≡ slice_set (numbers_of self.old.at) (q % 32) q) × (sizes_of self.new.at ≡ slice_set (sizes_of self.old.at) (q % 32) n) }
    {
        self.heard = self.heard.max(q);
        self.at[(q % 32) as usize] = Place { number: q, size: n };
    }

    // Hears that there is a packet n.
    pub fn hear(&mut self, n: u64)
        ensures { (self.new.heard ≡ max self.old.heard n) × (self.new.at ≡ self.old.at) }
    {
        self.heard = self.heard.max(n);
    }
}

// Lays a packet at its place; no other byte of the shelf changes.
pub fn lay(shelf: &mut [u8], q: u64, bytes: &[u8])
    requires { (44800 ≤ length shelf.old) × (length bytes.now ≤ 1400) }
    ensures { shelf.new ≡ written shelf.old q bytes.now }
{
    let p = (q % 32) as usize * 1400;
    shelf[p..p + bytes.len()].copy_from_slice(bytes);
}
