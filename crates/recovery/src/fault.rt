ghost use Rattle.std.specs.Prelude.{◌≡◌};
ghost use Rattle.recovery.specs.declared.fault.StreamFault.TheVariants.{Frame, Store};
ghost use Rattle.recovery.specs.Faults.{in_stream, stream_refusal};

use packet::fault::FrameFault;
use refusal::{Layer, Reason, Refusal};
use store::fault::StoreFault;

// why a call of the receiver is refused: by the packet's frame, by the store, or by the stream itself
#[derive(Clone, Copy, Debug, PartialEq, Eq)]
pub enum StreamFault {
    Frame(FrameFault),
    Store(StoreFault),
    Channel,
    Version,
    Number,
    Late,
    Join,
    Shelf(usize),
    Instrument,
    WatchList,
    OwnVersion,
    Slots,
}

impl From<FrameFault> for StreamFault {
    ghost from_gives = { λ e r. r ≡ Frame e };

    fn from(fault: FrameFault) -> StreamFault {
        StreamFault::Frame(fault)
    }
}

impl From<StoreFault> for StreamFault {
    ghost from_gives = { λ e r. r ≡ Store e };

    fn from(fault: StoreFault) -> StreamFault {
        StreamFault::Store(fault)
    }
}

fn in_stream(reason: Reason, place: usize) -> Refusal
    ensures { result ≡ in_stream reason place }
{
    Refusal {
        reason,
        layer: Layer::Stream,
        place,
    }
}

// A fault's reason, layer and place; those of a frame or a store come through whole.
impl From<StreamFault> for Refusal {
    ghost from_gives = { λ fault refusal. refusal ≡ stream_refusal fault };

    fn from(fault: StreamFault) -> Refusal {
        match fault {
            StreamFault::Frame(e) => Refusal::from(e),
            StreamFault::Store(e) => Refusal::from(e),
            StreamFault::Channel => in_stream(Reason::Channel, 0),
            StreamFault::Version => in_stream(Reason::Version, 2),
            StreamFault::Number => in_stream(Reason::Number, 4),
            StreamFault::Late => in_stream(Reason::Late, 4),
            StreamFault::Join => in_stream(Reason::Join, 0),
            StreamFault::Shelf(length) => in_stream(Reason::Shelf, length),
            StreamFault::Instrument => in_stream(Reason::Instrument, 0),
            StreamFault::WatchList => in_stream(Reason::Opening, 1),
            StreamFault::OwnVersion => in_stream(Reason::Opening, 2),
            StreamFault::Slots => in_stream(Reason::Opening, 3),
        }
    }
}
