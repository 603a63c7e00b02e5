ghost use Rattle.std.specs.Prelude.{◌≡◌};
ghost use Rattle.coverage.specs.Shades.{level_of};

use std::fmt;
use std::fmt::Display;

// what an instrument's book is at a number: not told, or its mark; each is worse than the one before
#[derive(Clone, Copy, Debug, PartialEq, Eq, PartialOrd, Ord)]
pub enum Shade {
    Blank,
    Current,
    Recovering,
    Stale,
}

impl Shade {
    // Its level: the worse, the higher.
    pub fn level(self) -> u8
        ensures { result ≡ level_of self }
    {
        self as u8
    }
}

impl Display for Shade {
    fn fmt<W: fmt::Write>(&self, f: &mut fmt::Formatter<W>) -> fmt::Result {
        f.write_str(match self {
            Shade::Blank => "blank",
            Shade::Current => "current",
            Shade::Recovering => "recovering",
            Shade::Stale => "stale",
        })
    }
}
