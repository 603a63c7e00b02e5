ghost use Rattle.std.specs.Prelude.{◌≡◌, ◌≤◌, true, length, vec_capacity};
ghost use Rattle.layout.specs.Lawful.{lawful};
ghost use Rattle.layout.specs.Hint.{Near, ids_of};

use crate::kinds::Actions;
use crate::template::Template;

// a layout sheet: it keeps every rule of a sheet, whatever made it. `first` tells for the last digits of a template's
// number where a search for it may start
#[derive(Drop)]
pub struct Sheet {
    pub actions: Actions,
    pub templates: Vec<Template>,
    pub first: [u8; 256],
    ghost lawful: { lawful actions templates.items ≡ true },
    ghost near: { Near (ids_of templates.items) first },
    ghost hints: { length first ≡ 256 },
    ghost room: { 40 ≤ vec_capacity templates },
}
