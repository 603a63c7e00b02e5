ghost use Rattle.std.specs.Prelude.{◌≡◌, length};

use recovery::marks::Mark;

// how far the book at each slot has come
#[derive(Clone, Copy)]
pub struct Marks {
    pub at: [Mark; 64],
    ghost long: { length at ≡ 64 },
}
