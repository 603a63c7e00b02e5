use std::fmt::Display;
use std::fs;
use std::fs::File;
use std::io::Write;

// rows are written in blocks of so many bytes
const BLOCK: usize = 65536;

// where rows go: a file, or standard output; `text` are those that are not written yet
#[derive(Drop)]
pub struct Output {
    file: Option<File>,
    pub text: String,
    pub rows: u64,
}

impl Output {
    // Rows for a file, or for standard output where there is no path.
    pub fn new(rt: &HostRuntime, path: Option<&str>) -> anyhow::Result<Output> {
        let file = path.map(|path| fs::create(rt, path)).transpose()?;
        let text = String::with_capacity(rt.alloc(), 2 * BLOCK)?;
        Ok(Output {
            file,
            text,
            rows: 0,
        })
    }

    // One row more.
    pub fn row<D: Display + Drop>(&mut self, columns: D) -> anyhow::Result<()> {
        writeln!(&mut self.text, "{columns}")?;
        self.rows = self.rows.saturating_add(1);
        Ok(())
    }

    // Writes what has gathered, once it is a block.
    pub fn settle(&mut self, rt: &HostRuntime) -> anyhow::Result<()> {
        if self.text.len() >= BLOCK {
            self.flush(rt)?;
        }
        Ok(())
    }

    // Writes what has gathered.
    pub fn flush(&mut self, rt: &HostRuntime) -> anyhow::Result<()> {
        match &mut self.file {
            Some(file) => file.write_all(self.text.as_bytes())?,
            None => rt.print(self.text.as_str())?,
        }
        self.text.clear();
        Ok(())
    }
}
