ghost use Rattle.std.specs.Prelude.{◌≡◌, length};

use crate::listed::Listed;
use crate::numbers::Numbers;

// panels for 64 slots, and one staged, with how many numbers are owed to it
#[derive(Drop)]
pub struct PanelStore {
    pub(crate) listed: Listed,
    pub(crate) panels: [Numbers; 64],
    pub(crate) staged: Numbers,
    pub(crate) owed: usize,
    ghost slots: { length panels ≡ 64 },
}
