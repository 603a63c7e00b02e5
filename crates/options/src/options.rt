ghost use Rattle.std.specs.Prelude.{◌≡◌, length};

use crate::setting::Setting;

// the words of a command line so far: for each setting the place of the word that is its value, where it is given; which flags are
// raised; and the setting whose value is awaited
#[derive(Clone, Copy)]
pub struct Options {
    pub given: [Option<usize>; 10],
    pub raised: [bool; 3],
    pub awaited: Option<Setting>,
    ghost settings: { length given ≡ 10 },
    ghost flags: { length raised ≡ 3 },
}
