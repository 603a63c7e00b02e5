ghost use Rattle.std.specs.Prelude.{◌≡◌, ◌≤◌, length};

// the templates that panels have numbers of: the first `count` of the places are in use
// kept: a count beside the places, since opening a store takes no memory
#[derive(Clone, Copy)]
pub struct Listed {
    pub(crate) places: [u16; 16],
    pub(crate) count: usize,
    ghost size: { length places ≡ 16 },
    ghost room: { count ≤ 16 },
}
