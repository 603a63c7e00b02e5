ghost use Rattle.std.specs.Prelude.{◌≡◌, ◌+◌, ◌-◌, ◌^◌, ◌≤◌, min, [], length, drop, IfOk, Some, None};
ghost use Rattle.reading.specs.Memory.{held};

use crate::reader::Reader;
use crate::window::Window;
use capture::fault::CaptureFault;
use capture::format::Format;
use capture::header::format;
use capture::part::Part;
use std::alloc::{AllocError, Global};
use std::fs::File;
use std::io;
use std::io::Read;

const BLOCK: usize = 1048576;

impl Reader {
    // Nothing read yet.
    pub fn new(heap: Global) -> Result<Reader, AllocError>
        ensures { IfOk result (λ x. (held x ≡ []) × (x.offset ≡ 0) × (x.format ≡ None)) }
    {
        let buffer = vec![in heap; 0u8; BLOCK]?;
        Ok(Reader {
            buffer,
            held: 0,
            offset: 0,
            format: None,
        })
    }

    // Reads on behind what is held; `true` at the end of the file.
    pub fn fill(&mut self, file: &mut File) -> io::Result<bool>
        ensures { (self.new.offset ≡ self.old.offset) × (self.new.format ≡ self.old.format) × (self.old.held ≤ self.new.held) }
    {
        let buffer = self.buffer.as_mut_slice();
        let n = file.read(&mut buffer[self.held..])?;
        self.held += n;
        Ok(n == 0)
    }

    // Lets go of bytes at the front.
    pub fn skip(&mut self, used: usize)
        ensures bytes { held self.new ≡ drop used (held self.old) }
        ensures offset { self.new.offset ≡ min (self.old.offset + min used self.old.held) (2 ^ 64 - 1) }
        ensures format { self.new.format ≡ self.old.format }
    {
        let held = self.held;
        let used = used.min(held);
        self.buffer.copy_within(used..held, 0);
        self.held = held - used;
        self.offset = self.offset.saturating_add(used as u64);
    }

    // How far the file is shown.
    pub fn offset(&self) -> u64
        ensures { result ≡ self.now.offset }
    {
        self.offset
    }

    // Reads the file header, once its bytes are there; `last` says that no more will come.
    pub fn open(&mut self, last: bool) -> Result<(), CaptureFault> {
        if self.format.is_some() || self.held < 24 && !last {
            return Ok(());
        }
        let found = format(&self.buffer.as_slice()[0..self.held])?;
        self.format = Some(found);
        self.skip(24);
        Ok(())
    }

    // What the file header says, once it is read.
    pub fn format(&self) -> Option<Format>
        ensures { result ≡ self.now.format }
    {
        self.format
    }

    // The bytes that are held, whose records have that format; `last` says that the file ends with them.
    pub fn window(&self, format: Format, last: bool) -> Window<'_>
        ensures { (result.part.format ≡ format) × (result.part.bytes.now ≡ held self.now) × (result.part.offset ≡ self.now.offset) × (result.part.last ≡ last) × (result.at ≡ 0) }
    {
        Window {
            part: Part {
                format,
                bytes: &self.buffer.as_slice()[0..self.held],
                offset: self.offset,
                last,
            },
            at: 0,
        }
    }
}
