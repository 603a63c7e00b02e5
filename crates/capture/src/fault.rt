use std::error::Error;
use std::fmt;

// why a file cannot be read on, each with the byte offset in the file
#[derive(Clone, Copy, Debug, PartialEq, Eq)]
pub enum CaptureFault {
    NotCapture,
    UnknownLink,
    HeaderCut(u64),
    RecordCut(u64),
    RecordLong(u64),
}

impl fmt::Display for CaptureFault {
    fn fmt<W: fmt::Write>(&self, f: &mut fmt::Formatter<W>) -> fmt::Result {
        f.write_str(match self {
            CaptureFault::NotCapture => "no capture file",
            CaptureFault::UnknownLink => "a link type that is not known",
            CaptureFault::HeaderCut(_) => "the file ends inside its header",
            CaptureFault::RecordCut(_) => "the file ends inside a record",
            CaptureFault::RecordLong(_) => "a record that is too long",
        })
    }
}

impl Error for CaptureFault {}
