ghost use Rattle.std.specs.Prelude.{◌≡◌};
ghost use Rattle.layout.specs.Reach.{root_reach, entry_reach};

use crate::kinds::Layout;

// a template of the sheet, with how far its root block and its entries must reach for their fields
#[derive(Clone, Copy)]
pub struct Template {
    pub id: u16,
    pub layout: Layout,
    pub root: u16,
    pub entry: u16,
    ghost root_reach: { root ≡ root_reach layout },
    ghost entry_reach: { entry ≡ entry_reach layout },
}
