ghost use Rattle.std.specs.Prelude.{◌≡◌};
ghost use Rattle.capture.specs.Held.{view};
ghost use Rattle.capture.specs.Records.{file_holds};
ghost use Rattle.capture.specs.Tally.{nothing, noted, ended, tallied};
ghost use Rattle.capture.specs.Walk.{left};

use crate::fault::CaptureFault;
use crate::file::Capture;
use crate::frame::Frame;
use crate::tally::Tally;

impl Tally {
    // Nothing read yet.
    pub fn new() -> Tally
        ensures { result ≡ nothing }
    {
        Tally::default()
    }

    // Counts what a record holds; a count stops at the largest number.
    pub fn note(&mut self, frame: &Frame)
        ensures { self.new ≡ noted self.old (view frame.now) }
    {
        match frame {
            Frame::Datagram(_) => self.datagrams = self.datagrams.saturating_add(1),
            Frame::Cut => self.cut = self.cut.saturating_add(1),
            Frame::Fragment => self.fragments = self.fragments.saturating_add(1),
            Frame::NoUdp => self.other = self.other.saturating_add(1),
        }
    }

    // Notes the fault that ends a file.
    pub fn end(&mut self, fault: CaptureFault)
        ensures { self.new ≡ ended self.old fault }
    {
        self.fault = Some(fault);
    }
}

// Counts the records of a file, of which `bytes` has all.
pub fn count(bytes: &[u8]) -> Tally
    ensures { result ≡ tallied nothing (file_holds bytes.now) }
{
    let mut tally = Tally::new();
    match Capture::open(bytes) {
        Ok(capture) => drain(capture, tally),
        Err(fault) => {
            tally.end(fault);
            tally
        }
    }
}

// Counts what a capture still has to hand out.
fn drain(mut capture: Capture, mut tally: Tally) -> Tally
    ensures { result ≡ tallied tally (left capture.entry) }
{
    loop {
        match capture.next() {
            Ok(Some(frame)) => tally.note(&frame),
            Ok(None) => return tally,
            Err(last) => {
                tally.end(last);
                return tally;
            }
        }
    }
}
