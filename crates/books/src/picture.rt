use coverage::coverage::Coverage;
use coverage::shade::Shade;
use coverage_svg::drawing::draw;
use recovery::answers::{Sign, Standing};
use std::alloc::{AllocError, Global};
use std::fs;

// a picture of where each book was current, recovering and stale, for the file at a path; it is begun at the first packet
#[derive(Drop)]
pub struct Picture {
    path: String,
    coverage: Option<Coverage>,
}

// kept: sign and shade are of other crates, neither of which stands on the other, so that no `From` can be written here
fn shade_of(sign: Sign) -> Shade {
    match sign {
        Sign::Stale => Shade::Stale,
        Sign::Recovering => Shade::Recovering,
        Sign::Current => Shade::Current,
    }
}

impl Picture {
    // A picture that is not begun.
    pub fn new(heap: Global, path: &str) -> Result<Picture, AllocError> {
        Ok(Picture {
            path: String::from_str(heap, path)?,
            coverage: None,
        })
    }

    // Begins the bands of so many instruments at a number.
    pub fn begin(
        &mut self,
        heap: Global,
        instruments: usize,
        first: u64,
    ) -> Result<(), AllocError> {
        self.coverage = Some(Coverage::new(heap, instruments, first)?);
        Ok(())
    }

    // Notes how the book at a slot stands, after a call before which `before` was the highest packet heard.
    pub fn tell(&mut self, slot: usize, before: u64, standing: Standing) {
        if let Some(coverage) = &mut self.coverage {
            let _ = coverage.tell(slot, before, standing.heard, shade_of(standing.sign));
        }
    }

    // Notes that a snapshot was adopted for the book at a slot.
    pub fn adopt(&mut self, slot: usize, number: u64) {
        if let Some(coverage) = &mut self.coverage {
            let _ = coverage.adopt(slot, number);
        }
    }

    // Draws the picture into its file, which has its name only once it is whole.
    pub fn draw(
        &mut self,
        rt: &HostRuntime,
        instruments: &[u64],
        heard: u64,
    ) -> anyhow::Result<()> {
        if let Some(coverage) = &mut self.coverage {
            coverage.finish(heard);
            let path = self.path.as_str();
            let mut text = String::new(rt.alloc());
            draw(coverage, instruments, &mut text)?;
            let part = format!(in rt.alloc(); "{path}.part")?;
            fs::write(rt, part.as_str(), text.as_str())?;
            fs::rename(rt, part.as_str(), path)?;
        }
        Ok(())
    }
}
