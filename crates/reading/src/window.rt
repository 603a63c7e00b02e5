ghost use Rattle.std.specs.Prelude.{◌≤◌, length};

use capture::part::Part;

// a part of a file, which is shown up to its byte `at`
#[derive(Drop)]
pub struct Window<'w> {
    pub(crate) part: Part<'w>,
    pub(crate) at: usize,
    ghost within: { at ≤ length part.bytes.now },
}
