ghost use Rattle.std.specs.Prelude.{◌≡◌, ℕ, ◌<◌, ◌≤◌, true, length, IfSome, take};
ghost use Rattle.message.specs.Meaning.{security};
ghost use Rattle.message.specs.Views.{view};
ghost use Rattle.recovery.specs.State.{slot_in, distinct};
ghost use Rattle.settling.specs.Slots.{slot_found, slot_named, Near};
ghost use Rattle.settling.specs.Watched.{watch_of};

use crate::watch::Watch;
use message::fields::security_of;
use message::message::Message;

// The first place of an instrument in a list, of which it is known that it is not before `start`.
// kept: the watch list is searched by an index, which is both where the search starts and the slot that it finds
fn place_from(list: &[u64], id: u64, start: usize) -> Option<usize>
    requires { start ≤ slot_in list.now id }
    ensures { result ≡ slot_found list.now id }
{
    for i in start..list.len() {
        if list[i] == id {
            return Some(i);
        }
    }
    None
}

// Whether no instrument stands twice in a list.
// kept: each place is compared with those behind it, and the place is the index of both
pub fn all_different(list: &[u64]) -> bool
    ensures { result ≡ distinct list.now }
{
    for i in 0..list.len() {
        if place_from(&list[i + 1..], list[i], 0).is_some() {
            return false;
        }
    }
    true
}

// Where a search may start, for the last digits of every instrument.
fn hints(list: &[u64]) -> [u8; 1024]
    requires { length list.now ≤ 64 }
    ensures { Near result list.now × (length result ≡ 1024) }
{
    let mut first = [list.len() as u8; 1024];
    for (k, id) in list.iter().enumerate() {
        let digits = (*id % 1024) as usize;
        first[digits] = first[digits].min(k as u8);
    }
    first
}

// A list of at most 64 instruments, in an array.
fn copied(list: &[u64]) -> [u64; 64]
    requires { length list.now ≤ 64 }
    ensures { (take (length list.now) result ≡ list.now) × (length result ≡ 64) }
{
    let mut ids = [0u64; 64];
    let n = list.len();
    ids[0..n].copy_from_slice(list);
    ids
}

impl Watch {
    // A watch list of at most 64 different instruments.
    pub fn new(list: &[u64]) -> Watch
        requires { (length list.now ≤ 64) × (distinct list.now ≡ true) }
        ensures { watch_of result ≡ list.now }
    {
        Watch {
            ids: copied(list),
            count: list.len(),
            first: hints(list),
        }
    }

    // How many instruments are watched.
    pub fn len(&self) -> usize
        ensures { result ≡ length (watch_of self.now) }
    {
        self.count
    }

    // The slot of an instrument, if it is watched.
    pub fn slot(&self, id: u64) -> Option<usize>
        ensures { result ≡ slot_found (watch_of self.now) id }
    {
        let start = usize::from(self.first[(id % 1024) as usize]);
        place_from(&self.ids[0..self.count], id, start)
    }

    // The slot of the instrument that a message names, if it is watched.
    pub fn named(&self, message: &Message) -> Option<usize>
        ensures slot { result ≡ slot_named (watch_of self.now) (security (view message.now)) }
        ensures within { IfSome result (λ q. q < 64) }
    {
        let id = security_of(message)?;
        self.slot(id)
    }
}
