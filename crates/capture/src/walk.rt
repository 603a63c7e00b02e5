ghost use Rattle.capture.specs.Walk.{Opened, Stepped};

use crate::fault::CaptureFault;
use crate::file::Capture;
use crate::frame::Frame;
use crate::header::format;
use crate::part::Part;
use crate::step::Step;

impl<'a> Capture<'a> {
    // The records of a file, of which `bytes` has all.
    pub fn open(bytes: &'a [u8]) -> Result<Capture<'a>, CaptureFault>
        ensures { Opened bytes.now result }
    {
        let format = format(bytes)?;
        Ok(Capture {
            format,
            bytes,
            at: 24,
        })
    }

    // What the next record holds; `None` at the end of the file.
    pub fn next(&mut self) -> Result<Option<Frame<'a>>, CaptureFault>
        ensures { Stepped self.old result self.new }
    {
        let bytes = self.bytes;
        let part = Part {
            format: self.format,
            bytes: &bytes[bytes.len().min(self.at)..],
            offset: self.at as u64,
            last: true,
        };
        match part.step()? {
            Step::End => Ok(None),
            Step::More(_) => unreachable(),
            Step::Taken(frame, size) => {
                self.at += size;
                Ok(Some(frame))
            }
        }
    }
}
