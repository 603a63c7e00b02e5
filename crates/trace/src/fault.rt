ghost use Rattle.std.specs.Prelude.{◌≡◌};

use std::alloc::AllocError;

// why a line is not answered: it says no command that can be performed now, or there is no memory
#[derive(Drop)]
pub enum LineFault {
    Unknown,
    Memory(AllocError),
}

impl From<AllocError> for LineFault {
    fn from(error: AllocError) -> LineFault {
        LineFault::Memory(error)
    }
}
