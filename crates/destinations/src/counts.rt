ghost use Rattle.std.specs.Prelude.{◌≡◌, length};

use crate::refusals::Refusals;

// how many messages of each kind came, and of none, and what datagrams were refused
#[derive(Drop)]
pub struct Counts {
    pub(crate) kinds: [u64; 8],
    pub refusals: Refusals<8>,
    ghost eight_kinds: { length kinds ≡ 8 },
}
