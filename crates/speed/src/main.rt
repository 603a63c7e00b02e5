#![tactic(auto)]

mod calls;
mod digest;
mod feeding;

use crate::feeding::{Feeding, walk_all};
use anyhow::{Context, anyhow};
use commands::number::decimal;
use layout::sheet::Sheet;
use message::values::Order;
use orders::opening::check_opening;
use orders::order_store::OrderStore;
use replay::desk::Desk;
use sheet_text::filling::fill;
use std::time::Instant;
use std::{env, fs};

const USAGE: &str = "usage: speed feed|walk|digest SHEET CALLS DEPTH PASSES ID..";

// what is measured: every call of the receiver, or the packet check and walk alone; or what is made of each call's answer
#[derive(Clone, Copy, PartialEq, Eq)]
enum Mode {
    Feed,
    Walk,
    Digest,
}

impl<'a> From<&'a str> for Mode {
    fn from(word: &'a str) -> Mode {
        match word {
            "feed" => Mode::Feed,
            "walk" => Mode::Walk,
            _ => Mode::Digest,
        }
    }
}

// what is measured, and how often
#[derive(Drop)]
struct Task {
    mode: Mode,
    sheet: Sheet,
    input: Vec<u8>,
    depth: usize,
    passes: u64,
    ids: Vec<u64>,
}

// The next word of the command line.
fn word(words: &mut env::Args) -> anyhow::Result<String> {
    words.next().context(USAGE)
}

// The number that a word says.
fn number(word: &str) -> anyhow::Result<u64> {
    decimal(word.as_bytes()).context(USAGE)
}

// What the command line asks for.
fn asked(rt: &HostRuntime) -> anyhow::Result<Task> {
    let mut words = env::args(rt)?;
    let _ = words.next();
    let mode = Mode::from(word(&mut words)?.as_str());
    let text = fs::read(rt, word(&mut words)?.as_str())?;
    let input = fs::read(rt, word(&mut words)?.as_str())?;
    let depth = number(word(&mut words)?.as_str())? as usize;
    let passes = number(word(&mut words)?.as_str())?;
    let mut ids = Vec::new(rt.alloc());
    // more than 64 instruments cannot be watched
    for id in words.take(65) {
        ids.push(number(id.as_str())?)?;
    }
    let mut sheet = Sheet::blank(rt.alloc())?;
    if fill(&mut sheet, text.as_slice()).is_err() {
        return Err(anyhow!("the sheet breaks a rule"));
    }
    Ok(Task {
        mode,
        sheet,
        input,
        depth,
        passes,
        ids,
    })
}

impl Task {
    // One pass over the calls with a new receiver; how long it took is told, or a digest.
    fn pass(
        &self,
        rt: &HostRuntime,
        store: &mut OrderStore,
        shelf: &mut [u8],
    ) -> anyhow::Result<()> {
        let ids = self.ids.as_slice();
        let Ok(desk) = Desk::open(store, self.sheet.clone()?, 55, 1, 1, ids) else {
            return Err(anyhow!("the opening is refused"));
        };
        let mut feeding = Feeding { desk, store, shelf };
        let start = Instant::now(rt);
        let sum = match self.mode {
            Mode::Feed => feeding.feed(self.input.as_slice()),
            _ => feeding.digest(self.input.as_slice(), ids),
        };
        let Feeding {
            desk,
            store: _,
            shelf: _,
        } = feeding;
        let _ = desk.close();
        let nanos = start?.elapsed(rt)?.as_nanos();
        match self.mode {
            Mode::Feed => println!(rt; "{nanos} {sum:016x}")?,
            _ => println!(rt; "digest {sum:016x}")?,
        }
        Ok(())
    }

    // As many passes as are asked for, over one store of that depth in that table.
    fn receive_over(
        &self,
        rt: &HostRuntime,
        depth: usize,
        table: &mut [Order],
    ) -> anyhow::Result<()> {
        let mut shelf = vec![in rt.alloc(); 0u8; 44800]?;
        let mut store = match check_opening(depth, table.len()) {
            Ok(()) => OrderStore::open(self.sheet.actions, depth, table),
            Err(_) => return Err(anyhow!("the depth is refused")),
        };
        for _ in 0..self.passes {
            self.pass(rt, &mut store, shelf.as_mut_slice())?;
        }
        Ok(())
    }

    // As many passes as are asked for.
    fn receive(&self, rt: &HostRuntime) -> anyhow::Result<()> {
        let depth = self.depth.min(2000);
        let mut table = vec![in rt.alloc(); Order::default(); 130 * depth]?;
        self.receive_over(rt, depth, table.as_mut_slice())
    }

    // As many passes of the packet check and walk alone.
    fn walk(&self, rt: &HostRuntime) -> anyhow::Result<()> {
        for _ in 0..self.passes {
            let start = Instant::now(rt)?;
            let sum = walk_all(&self.sheet, self.input.as_slice());
            let nanos = start.elapsed(rt)?.as_nanos();
            println!(rt; "{nanos} {sum:016x}")?;
        }
        Ok(())
    }
}

fn run(rt: &HostRuntime) -> anyhow::Result<()> {
    let task = asked(rt)?;
    match task.mode {
        Mode::Walk => task.walk(rt),
        Mode::Feed | Mode::Digest => task.receive(rt),
    }
}

fn main(rt: HostRuntime) -> anyhow::Result<()> {
    run(&rt)
}
