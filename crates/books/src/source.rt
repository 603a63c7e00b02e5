use capture::fault::CaptureFault;
use capture::frame::Frame;
use reading::reader::Reader;
use reading::window::Window;
use std::fs;

// progress is told each time that so many bytes more are read
const PROGRESS: u64 = 67108864;

// a capture file, and whether it is told how much of it is read
#[derive(Clone, Copy)]
pub struct Source<'s> {
    pub path: &'s str,
    pub progress: bool,
}

// Who looks at the records of a capture, one after the other.
pub trait Sees {
    fn see(&mut self, rt: &HostRuntime, frame: &Frame) -> anyhow::Result<()>;
}

// Shows every whole record that a window has still to show, up to the fault that it breaks with.
fn drain<S: Sees>(
    rt: &HostRuntime,
    window: &mut Window,
    seer: &mut S,
) -> anyhow::Result<Result<(), CaptureFault>> {
    loop {
        match window.next() {
            Ok(Some(frame)) => seer.see(rt, &frame)?,
            Ok(None) => return Ok(Ok(())),
            Err(fault) => return Ok(Err(fault)),
        }
    }
}

impl<'s> Source<'s> {
    // Shows every record of the file, in order, up to its end or to the fault that it breaks with.
    pub fn show<S: Sees>(
        &self,
        rt: &HostRuntime,
        seer: &mut S,
    ) -> anyhow::Result<Result<(), CaptureFault>> {
        let mut file = fs::open(rt, self.path)?;
        let mut reader = Reader::new(rt.alloc())?;
        let mut told = PROGRESS;
        for _ in 0..u64::MAX {
            let last = reader.fill(&mut file)?;
            if let Err(fault) = reader.open(last) {
                return Ok(Err(fault));
            }
            let Some(format) = reader.format() else {
                continue;
            };
            let mut window = reader.window(format, last);
            let whole = drain(rt, &mut window, seer)?;
            let used = window.used();
            reader.skip(used);
            if last || whole.is_err() {
                return Ok(whole);
            }
            if self.progress && reader.offset() >= told {
                let read = told / 1048576;
                eprintln!(rt; "{read} MiB read")?;
                told = told.saturating_add(PROGRESS);
            }
        }
        Ok(Ok(()))
    }
}
