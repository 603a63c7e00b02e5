use std::fmt;
use std::fmt::Display;

// what a word of a command line gives a value to
#[derive(Clone, Copy, Debug, PartialEq, Eq)]
pub enum Setting {
    Sheet,
    Capture,
    Channel,
    Version,
    Incremental,
    Snapshot,
    Watch,
    Depth,
    Out,
    Coverage,
}

impl Display for Setting {
    fn fmt<W: fmt::Write>(&self, f: &mut fmt::Formatter<W>) -> fmt::Result {
        f.write_str(match self {
            Setting::Sheet => "SHEET",
            Setting::Capture => "CAPTURE",
            Setting::Channel => "--channel",
            Setting::Version => "--version",
            Setting::Incremental => "--incremental",
            Setting::Snapshot => "--snapshot",
            Setting::Watch => "--watch",
            Setting::Depth => "--depth",
            Setting::Out => "--out",
            Setting::Coverage => "--coverage",
        })
    }
}

// what a word of a command line turns on
#[derive(Clone, Copy, Debug, PartialEq, Eq)]
pub enum Flag {
    Panel,
    Progress,
    Help,
}

// what a word stands for where no value is awaited
#[derive(Clone, Copy, Debug, PartialEq, Eq)]
pub enum Word {
    Names(Setting),
    Raises(Flag),
    Unknown,
    Plain,
}
