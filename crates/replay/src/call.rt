ghost use Rattle.std.specs.Prelude.{◌≡◌};
ghost use Rattle.replay.specs.Replies.{of_incremental, of_snapshot, of_standing};

use recovery::answers::{Incremental, Snapshot, Standing};
use recovery::fault::StreamFault;

// a call of the receiver, with the bytes that it brings
#[derive(Clone, Copy)]
pub enum Call<'a> {
    Incremental(&'a [u8]),
    Join,
    Leave,
    Snapshot(&'a [u8]),
    Question(u64),
}

// what a call answers: `Taken` is of an incremental packet, `Adopted` has the number of a snapshot packet's adoptions
#[derive(Clone, Copy, Debug, PartialEq, Eq)]
pub enum Answer {
    Taken,
    Repeat,
    Adopted(usize),
    Joined,
    Left,
    Standing(Standing),
    Refused(StreamFault),
}

impl From<Result<Incremental, StreamFault>> for Answer {
    ghost from_gives = { λ r a. a ≡ of_incremental r };

    fn from(told: Result<Incremental, StreamFault>) -> Answer {
        match told {
            Ok(Incremental::Taken) => Answer::Taken,
            Ok(Incremental::Repeat) => Answer::Repeat,
            Err(fault) => Answer::Refused(fault),
        }
    }
}

impl From<Result<Snapshot, StreamFault>> for Answer {
    ghost from_gives = { λ r a. a ≡ of_snapshot r };

    fn from(told: Result<Snapshot, StreamFault>) -> Answer {
        match told {
            Ok(Snapshot::Taken(adoptions)) => Answer::Adopted(adoptions),
            Ok(Snapshot::Repeat) => Answer::Repeat,
            Err(fault) => Answer::Refused(fault),
        }
    }
}

impl From<Result<Standing, StreamFault>> for Answer {
    ghost from_gives = { λ r a. a ≡ of_standing r };

    fn from(told: Result<Standing, StreamFault>) -> Answer {
        match told {
            Ok(standing) => Answer::Standing(standing),
            Err(fault) => Answer::Refused(fault),
        }
    }
}
