ghost use Rattle.std.specs.Prelude.{◌≡◌, ℕ, ◌+◌, ◌≤◌, true, List, [], length, IfOk};
ghost use Rattle.capture.specs.Held.{view};
ghost use Rattle.capture.specs.Joined.{RecordsJoin};
ghost use Rattle.capture.specs.Records.{captured, time_of, record_held, wanted};
ghost use Rattle.capture.specs.Window.{seen, step_of, Agrees};

use crate::fault::CaptureFault;
use crate::format::Precision;
use crate::frame::Frame;
use crate::network::datagram;
use crate::part::Part;
use crate::read::four;
use crate::step::Step;

// A record whose header tells more bytes than these is not believed.
pub const LONGEST: u32 = 262144;

impl<'a> Part<'a> {
    // The time of the record at the front.
    fn time(&self) -> u64
        requires { 16 ≤ length self.now.bytes.now }
        ensures { result ≡ time_of self.now.format self.now.bytes.now }
    {
        let order = self.format.order;
        let seconds = u64::from(four(order, self.bytes, 0));
        let fraction = u64::from(four(order, self.bytes, 4));
        let scale = match self.format.precision {
            Precision::Micro => 1000,
            Precision::Nano => 1,
        };
        seconds * 1000000000 + fraction * scale
    }

    // How many bytes must be there for the record at the front.
    fn wants(&self) -> Result<usize, CaptureFault>
        ensures value { result ≡ wanted self.now.format self.now.bytes.now self.now.offset }
        ensures least { IfOk result (λ n. 16 ≤ n) }
    {
        if self.bytes.len() < 16 {
            return Ok(16);
        }
        let captured = four(self.format.order, self.bytes, 8);
        if captured > LONGEST {
            return Err(CaptureFault::RecordLong(self.offset));
        }
        Ok(16 + captured as usize)
    }

    // What the record of `size` bytes at the front holds.
    fn held(&self, size: usize) -> Frame<'a>
        requires { (size ≡ 16 + captured self.now.format self.now.bytes.now) × (size ≤ length self.now.bytes.now) }
        ensures { view result ≡ record_held self.now.format self.now.bytes.now }
    {
        let order = self.format.order;
        if four(order, self.bytes, 8) < four(order, self.bytes, 12) {
            return Frame::Cut;
        }
        datagram(self.format.link, self.time(), &self.bytes[16..size])
    }

    // What the part shows, by its bytes alone.
    fn shown(&self) -> Result<Step<'a>, CaptureFault>
        ensures { seen result ≡ step_of self.now.format self.now.bytes.now self.now.offset self.now.last }
    {
        if self.last && self.bytes.is_empty() {
            return Ok(Step::End);
        }
        let size = self.wants()?;
        if self.bytes.len() < size {
            if self.last {
                return Err(CaptureFault::RecordCut(self.offset));
            }
            return Ok(Step::More(size));
        }
        Ok(Step::Taken(self.held(size), size))
    }

    // What the part shows at its front.
    pub fn step(&self) -> Result<Step<'a>, CaptureFault>
        ensures value { seen result ≡ step_of self.now.format self.now.bytes.now self.now.offset self.now.last }
        ensures file { (rest : List ℕ) → (self.now.last ≡ true → rest ≡ []) → Agrees self.now.format self.now.bytes.now rest self.now.offset (seen result) }
        ensures joins { RecordsJoin }
    {
        self.shown()
    }
}
