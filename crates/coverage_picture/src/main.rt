#![tactic(auto)]

use anyhow::{Context, anyhow};
use coverage::coverage::Coverage;
use coverage::shade::Shade;
use coverage_svg::drawing::draw;
use std::env;
use std::io::Read;

// the instruments are numbered from here on
const FIRST_INSTRUMENT: u64 = 200000000101;

// The next word on the command line, as a number.
fn number(word: Option<String>) -> anyhow::Result<u64> {
    let word = word.context("usage: coverage_picture INSTRUMENTS FIRST LAST < TURNS")?;
    Ok(word.as_str().parse::<u64>()?)
}

// Tells the coverage one line: `SLOT NUMBER WORD`, with the word current, recovering, stale or adopted.
fn tell(coverage: &mut Coverage, line: &str) -> anyhow::Result<()> {
    let mut words = line.split(' ');
    let (Some(slot), Some(at), Some(word)) = (words.next(), words.next(), words.next()) else {
        return Err(anyhow!("a line is SLOT NUMBER WORD"));
    };
    let slot = slot.parse::<usize>()?;
    let at = at.parse::<u64>()?;
    let told = match word {
        "current" => coverage.turn(slot, at, Shade::Current),
        "recovering" => coverage.turn(slot, at, Shade::Recovering),
        "stale" => coverage.turn(slot, at, Shade::Stale),
        "adopted" => coverage.adopt(slot, at),
        _ => return Err(anyhow!("a word is current, recovering, stale or adopted")),
    };
    told.map_err(|_| anyhow!("there is no such slot"))
}

// Draws what standard input tells.
fn run(rt: &HostRuntime) -> anyhow::Result<()> {
    let mut words = env::args(rt)?;
    let _ = words.next();
    let count = number(words.next())?.min(64) as usize;
    let first = number(words.next())?;
    let last = number(words.next())?;
    let mut coverage = Coverage::new(rt.alloc(), count, first)?;
    for line in rt.lines(rt.alloc()) {
        tell(&mut coverage, line?.as_str())?;
    }
    coverage.finish(last);
    let mut instruments = Vec::new(rt.alloc());
    for instrument in FIRST_INSTRUMENT..FIRST_INSTRUMENT + 64 {
        instruments.push(instrument)?;
    }
    let mut picture = String::new(rt.alloc());
    draw(&coverage, instruments.as_slice(), &mut picture)?;
    rt.print(picture.as_str())?;
    Ok(())
}

fn main(rt: HostRuntime) -> anyhow::Result<()> {
    run(&rt)
}
