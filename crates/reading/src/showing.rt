ghost use Rattle.std.specs.Prelude.{◌≡◌, ℕ, ◌+◌, ◌^◌, ◌<◌, ◌≤◌, true, List, [], length};
ghost use Rattle.reading.specs.Window.{Shows, moves};

use crate::window::Window;
use capture::fault::CaptureFault;
use capture::frame::Frame;
use capture::part::Part;
use capture::step::Step;

impl<'w> Window<'w> {
    // The record that the file holds next; `None` where more bytes are wanted for it, or at the end of the file.
    pub fn next(&mut self) -> Result<Option<Frame<'w>>, CaptureFault>
        ensures shows { self.old.part.offset + length self.old.part.bytes.now < 2 ^ 64 → (rest : List ℕ) → (self.old.part.last ≡ true → rest ≡ []) → Shows self.old rest result self.new }
        ensures moves { self.old.at + moves result 16 ≤ self.new.at }
        ensures same { self.new.part ≡ self.old.part }
    {
        let Part {
            format,
            bytes,
            offset,
            last,
        } = self.part;
        let at = self.at;
        let part = Part {
            format,
            bytes: &bytes[at..],
            offset: offset.saturating_add(at as u64),
            last,
        };
        match part.step()? {
            Step::Taken(frame, size) => {
                self.at = at + size;
                Ok(Some(frame))
            }
            Step::More(_) | Step::End => Ok(None),
        }
    }

    // How many bytes of the window are shown.
    pub fn used(&self) -> usize
        ensures { result ≡ self.now.at }
    {
        self.at
    }

    // Whether the file ends with the window.
    pub fn is_last(&self) -> bool
        ensures { result ≡ self.now.part.last }
    {
        self.part.last
    }
}
