ghost use Rattle.std.specs.Prelude.{◌≤◌, vec_len};

use capture::format::Format;

// the part of a file that is in memory: `held` bytes at the front of the buffer, which stand at `offset` of the file
// kept: a read fills a slice, so that the room behind what is held lies there already, and `held` says where it begins
#[derive(Drop)]
pub struct Reader {
    pub(crate) buffer: Vec<u8>,
    pub(crate) held: usize,
    pub(crate) offset: u64,
    pub(crate) format: Option<Format>,
    ghost within: { held ≤ vec_len buffer },
}
