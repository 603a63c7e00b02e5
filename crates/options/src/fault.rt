use crate::setting::Setting;
use std::fmt;
use std::fmt::Display;

// why a command line is refused, each with the place of the word: no such option, an option that is named twice, one word too
// many, or an option without its value
#[derive(Clone, Copy, Debug, PartialEq, Eq)]
pub enum OptionFault {
    Unknown(usize),
    Twice(usize),
    Extra(usize),
    NoValue(Setting),
}

impl Display for OptionFault {
    fn fmt<W: fmt::Write>(&self, f: &mut fmt::Formatter<W>) -> fmt::Result {
        match self {
            OptionFault::Unknown(_) => f.write_str("there is no such option"),
            OptionFault::Twice(_) => f.write_str("an option is given twice"),
            OptionFault::Extra(_) => f.write_str("one word too many"),
            OptionFault::NoValue(setting) => write!(f, "{setting} wants a value behind it"),
        }
    }
}
