ghost use Rattle.std.specs.Prelude.{◌≡◌};
ghost use Rattle.packet.specs.Refusals.{frame_refusal};

use refusal::{Layer, Reason, Refusal};

// why bytes are no packet of the channel; each holds the place, a byte's offset in the packet, where it varies
#[derive(Clone, Copy, Debug, PartialEq, Eq)]
pub enum FrameFault {
    Size,
    Empty,
    Torn(usize),
    Length(usize),
    Encoding(usize),
    Schema(usize),
    Block(usize),
    Group(usize),
}

// A fault's reason, layer and place.
impl From<FrameFault> for Refusal {
    ghost from_gives = { λ fault refusal. refusal ≡ frame_refusal fault };

    fn from(fault: FrameFault) -> Refusal {
        let (reason, place) = match fault {
            FrameFault::Size => (Reason::Size, 0),
            FrameFault::Empty => (Reason::Empty, 16),
            FrameFault::Torn(at) => (Reason::Torn, at),
            FrameFault::Length(at) => (Reason::Length, at),
            FrameFault::Encoding(at) => (Reason::Encoding, at),
            FrameFault::Schema(at) => (Reason::Schema, at),
            FrameFault::Block(at) => (Reason::Block, at),
            FrameFault::Group(at) => (Reason::Group, at),
        };
        Refusal {
            reason,
            layer: Layer::Frame,
            place,
        }
    }
}
