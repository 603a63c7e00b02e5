ghost use Rattle.std.specs.Prelude.{Some};
ghost use Rattle.recovery.specs.Signs.{sign_word};

use std::fmt;

// what becomes of an incremental packet that is not refused
#[derive(Clone, Copy, Debug, PartialEq, Eq)]
pub enum Incremental {
    Repeat,
    Taken,
}

// what becomes of a snapshot packet that is not refused: `Taken` has the number of adoptions
#[derive(Clone, Copy, Debug, PartialEq, Eq)]
pub enum Snapshot {
    Repeat,
    Taken(usize),
}

// whether a book is at the highest packet heard
#[derive(Clone, Copy, Debug, PartialEq, Eq)]
pub enum Sign {
    Stale,
    Recovering,
    Current,
}

impl fmt::Display for Sign {
    ghost output = { λ s. Some (sign_word s) };

    fn fmt<W: fmt::Write>(&self, f: &mut fmt::Formatter<W>) -> fmt::Result {
        f.write_str(match self {
            Sign::Stale => "stale",
            Sign::Recovering => "recovering",
            Sign::Current => "current",
        })
    }
}

// what a question answers: the sign, the packet that the book is of (0 if stale), and the highest packet heard
#[derive(Clone, Copy, Debug, PartialEq, Eq)]
pub struct Standing {
    pub sign: Sign,
    pub number: u64,
    pub heard: u64,
}
