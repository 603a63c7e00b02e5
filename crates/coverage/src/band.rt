ghost use Rattle.std.specs.Prelude.{◌+◌, ◌≤◌};

use crate::levels::Levels;
use crate::shade::Shade;

// one instrument's band over the numbers from `first` on: the shades and adoptions by column, the shade that stands since a
// number, and at how many numbers before that the book was current
#[derive(Drop)]
pub struct Band {
    pub(crate) shades: Levels,
    pub(crate) adoptions: Levels,
    pub(crate) first: u64,
    pub(crate) since: u64,
    pub(crate) shade: Shade,
    pub(crate) current: u64,
    ghost counted: { first + current ≤ since },
}
