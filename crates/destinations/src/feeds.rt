ghost use Rattle.std.specs.Prelude.{◌≡◌, Some};
ghost use Rattle.destinations.specs.Counting.{place_of};
ghost use Rattle.destinations.specs.Feeds.{came, feed_of, nearly_all};

use crate::counts::Counts;
use layout::kinds::Kind;
use std::fmt;

// what a destination's packets are: of a snapshot loop, incremental, statistics alone, or none of these
#[derive(Clone, Copy, Debug, PartialEq, Eq)]
pub enum Feed {
    Snapshot,
    Incremental,
    Statistics,
    Nothing,
}

impl fmt::Display for Feed {
    fn fmt<W: fmt::Write>(&self, f: &mut fmt::Formatter<W>) -> fmt::Result {
        f.write_str(match self {
            Feed::Snapshot => "snapshot loop",
            Feed::Incremental => "incremental",
            Feed::Statistics => "statistics alone",
            Feed::Nothing => "no message of the sheet",
        })
    }
}

impl Counts {
    // Whether messages of a kind came.
    fn has(&self, kind: Kind) -> bool
        ensures { result ≡ came self.now.kinds (place_of (Some kind)) }
    {
        self.of(Some(kind)) > 0
    }
}

// What the messages that came make of a destination.
pub fn feed_of(counts: &Counts) -> Feed
    ensures { result ≡ feed_of counts.now.kinds }
{
    if counts.has(Kind::Header) || counts.has(Kind::Entries) {
        return Feed::Snapshot;
    }
    if counts.has(Kind::Order)
        || counts.has(Kind::Delete)
        || counts.has(Kind::Mass)
        || counts.has(Kind::Empty)
    {
        return Feed::Incremental;
    }
    if counts.has(Kind::Stat) {
        return Feed::Statistics;
    }
    Feed::Nothing
}

// Whether a part is nearly all: no more than one in a hundred is none of it.
pub fn nearly_all(part: u64, all: u64) -> bool
    ensures { result ≡ nearly_all part all }
{
    u128::from(all) * 99 <= u128::from(part) * 100
}
