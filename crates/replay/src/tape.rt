ghost use Rattle.std.specs.Prelude.{◌≡◌, true};
ghost use Rattle.replay.specs.Entries.{within};

use crate::entry::Entry;
use std::alloc::Global;

// calls that wait to be performed as one row: the bytes of their packets one behind the other, and what each call is
#[derive(Drop)]
pub struct Tape {
    pub(crate) heap: Global,
    pub(crate) bytes: Vec<u8>,
    pub(crate) entries: Vec<Entry>,
    ghost lies: { within bytes.items entries.items ≡ true },
}
