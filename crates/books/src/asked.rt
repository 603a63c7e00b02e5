use crate::course::Feeds;
use anyhow::anyhow;
use capture::endpoint::Endpoint;
use commands::number::{decimal, decimal_in, numbers};
use layout::sheet::Sheet;
use options::endpoint::endpoint_in;
use options::fault::OptionFault;
use options::options::Options;
use options::setting::{Flag, Setting};
use sheet_text::filling::fill;
use sheet_text::text::cut;
use std::{env, fs};

const HELP: &str = "the command line is not understood; books --help tells all options";

pub const USAGE: &str = "usage: books SHEET CAPTURE [options]; books --help tells all";

// what the snapshot option says: nothing, that there is no loop, or where it is sent
// kept: three cases with names, of which an Option in an Option would name none
#[derive(Clone, Copy)]
pub enum Loop {
    Unsaid,
    Absent,
    At(Endpoint),
}

// the words of a command line, the program's name first, and what they stand for
#[derive(Drop)]
pub struct Words {
    words: Vec<String>,
    options: Options,
}

// what the command line asks for; what is not given is to be found
#[derive(Drop)]
pub struct Asked {
    pub words: Words,
    pub channel: Option<u8>,
    pub version: Option<u16>,
    pub feeds: Option<Feeds>,
    pub snapshot: Loop,
    pub watch: Vec<u64>,
    pub depth: usize,
}

// One or two addresses.
fn feeds_in(word: &[u8]) -> Option<Feeds> {
    match cut(word, b',') {
        Some((first, second)) => Some(Feeds {
            first: endpoint_in(first)?,
            second: Some(endpoint_in(second)?),
        }),
        None => Some(Feeds {
            first: endpoint_in(word)?,
            second: None,
        }),
    }
}

fn loop_in(word: &[u8]) -> Option<Loop> {
    match word {
        b"none" => Some(Loop::Absent),
        _ => Some(Loop::At(endpoint_in(word)?)),
    }
}

fn depth_in(word: &[u8]) -> Option<usize> {
    match decimal(word)? {
        depth @ 1..=1024 => Some(depth as usize),
        _ => None,
    }
}

impl Words {
    // The words that the program was given.
    fn read(rt: &HostRuntime) -> anyhow::Result<Words> {
        let mut read = Words {
            words: env::args(rt)?.collect(rt.alloc())?,
            options: Options::new(),
        };
        for (place, word) in read.words.iter().enumerate().skip(1) {
            if let Err(fault) = read.options.take(place, word.as_bytes()) {
                let word = word.as_str();
                eprintln!(rt; "books: {fault}: {word}")?;
                return Err(anyhow!(HELP));
            }
        }
        if let Some(setting) = read.options.awaited {
            let fault = OptionFault::NoValue(setting);
            eprintln!(rt; "books: {fault}")?;
            return Err(anyhow!(HELP));
        }
        Ok(read)
    }

    pub fn is_raised(&self, flag: Flag) -> bool {
        self.options.is_raised(flag)
    }

    // The word that is a setting's value, where it is given.
    pub fn value(&self, setting: Setting) -> Option<&str> {
        let word = self.words.get(self.options.place_of(setting)?)?;
        Some(word.as_str())
    }

    // What is read of a setting's value, where it is given; a word of which nothing is read is refused, and the form is told that
    // is wanted.
    fn value_by<T: Drop, F: FnOnce(&[u8]) -> Option<T>>(
        &self,
        rt: &HostRuntime,
        setting: Setting,
        form: &str,
        read: F,
    ) -> anyhow::Result<Option<T>>
        requires { F.IsAlwaysCallable read }
    {
        let Some(word) = self.value(setting) else {
            return Ok(None);
        };
        let value = read(word.as_bytes());
        if value.is_none() {
            eprintln!(rt; "books: {setting} wants {form}")?;
            eprintln!(rt; "books: not: {word}")?;
            return Err(anyhow!(HELP));
        }
        Ok(value)
    }
}

// What the command line asks for; nothing where it asks for help.
pub fn read_command(rt: &HostRuntime) -> anyhow::Result<Option<Asked>> {
    let words = Words::read(rt)?;
    if words.is_raised(Flag::Help) {
        return Ok(None);
    }
    if words.value(Setting::Capture).is_none() {
        return Err(anyhow!(USAGE));
    }
    let heap = rt.alloc();
    let channel = words.value_by(rt, Setting::Channel, "a number up to 255", decimal_in::<u8>)?;
    let version = words.value_by(
        rt,
        Setting::Version,
        "a number up to 65534",
        decimal_in::<u16>,
    )?;
    let depth = words.value_by(rt, Setting::Depth, "a number from 1 to 1024", depth_in)?;
    let feeds = words.value_by(
        rt,
        Setting::Incremental,
        "IP:PORT or IP:PORT,IP:PORT",
        feeds_in,
    )?;
    let snapshot = words.value_by(rt, Setting::Snapshot, "IP:PORT or none", loop_in)?;
    let watch = words
        .value_by(rt, Setting::Watch, "instruments as ID,ID,ID", |word| {
            numbers(heap, word, b',').transpose()
        })?
        .transpose()?;
    Ok(Some(Asked {
        words,
        channel,
        version,
        feeds,
        snapshot: snapshot.unwrap_or(Loop::Unsaid),
        watch: watch.unwrap_or(Vec::new(heap)),
        depth: depth.unwrap_or(1024),
    }))
}

// The sheet that a file's text fills.
pub fn load(rt: &HostRuntime, path: &str) -> anyhow::Result<Sheet> {
    let text = fs::read(rt, path)?;
    let mut sheet = Sheet::blank(rt.alloc())?;
    if let Err(fault) = fill(&mut sheet, text.as_slice()) {
        let line = fault.line;
        eprintln!(rt; "books: {path}: line {line} breaks a rule of a layout sheet or is missing")?;
        return Err(anyhow!("the layout sheet cannot be used"));
    }
    Ok(sheet)
}
