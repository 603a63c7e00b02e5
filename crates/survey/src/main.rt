#![tactic(auto)]

mod drain;
mod report;
mod sums;

use crate::drain::drain;
use anyhow::anyhow;
use capture::fault::CaptureFault;
use destinations::table::Table;
use layout::sheet::Sheet;
use reading::reader::Reader;
use sheet_text::filling::fill;
use std::{env, fs};

// progress is told each time that so many bytes more are read
const PROGRESS: u64 = 67108864;

// The two words behind the program's name.
fn paths(rt: &HostRuntime) -> anyhow::Result<(String, String)> {
    let mut words = env::args(rt)?;
    let _ = words.next();
    match (words.next(), words.next(), words.next()) {
        (Some(sheet), Some(capture), None) => Ok((sheet, capture)),
        _ => Err(anyhow!("usage: survey SHEET CAPTURE")),
    }
}

// The sheet that a file's text fills.
fn load(rt: &HostRuntime, path: &str) -> anyhow::Result<Sheet> {
    let text = fs::read(rt, path)?;
    let mut sheet = Sheet::blank(rt.alloc())?;
    if let Err(fault) = fill(&mut sheet, text.as_slice()) {
        let line = fault.line;
        return Err(anyhow!(format!(in rt.alloc();
            "{path}: line {line} breaks a rule of a layout sheet or is missing"
        )?));
    }
    Ok(sheet)
}

// Reads a capture to its end or to the fault that it breaks with.
fn scan(
    rt: &HostRuntime,
    path: &str,
    sheet: &Sheet,
    table: &mut Table,
) -> anyhow::Result<Option<CaptureFault>> {
    let mut file = fs::open(rt, path)?;
    let mut reader = Reader::new(rt.alloc())?;
    let mut told: u64 = PROGRESS;
    for _ in 0..u64::MAX {
        let last = reader.fill(&mut file)?;
        if let Err(fault) = reader.open(last) {
            return Ok(Some(fault));
        }
        if let Some(format) = reader.format() {
            let mut window = reader.window(format, last);
            let fault = drain(table, rt.alloc(), sheet, &mut window)?;
            let used = window.used();
            reader.skip(used);
            if last || fault.is_some() {
                return Ok(fault);
            }
        }
        if reader.offset() >= told {
            let read = told / 1048576;
            eprintln!(rt; "{read} MiB read")?;
            told = told.saturating_add(PROGRESS);
        }
    }
    Ok(None)
}

// Writes the figures of each destination, and the total.
fn tell(rt: &HostRuntime, table: &Table) -> anyhow::Result<()> {
    let mut out = String::new(rt.alloc());
    for d in table.destinations.as_slice() {
        report::write_destination(&mut out, d)?;
        rt.print(out.as_str())?;
        out.clear();
    }
    report::write_total(&mut out, table)?;
    rt.print(out.as_str())?;
    Ok(())
}

fn run(rt: &HostRuntime) -> anyhow::Result<()> {
    let (sheet_path, capture_path) = paths(rt)?;
    let sheet = load(rt, sheet_path.as_str())?;
    let mut table = Table::new(rt.alloc());
    let fault = scan(rt, capture_path.as_str(), &sheet, &mut table)?;
    tell(rt, &table)?;
    if let Some(fault) = fault {
        let at = fault.offset();
        return Err(anyhow!(format!(in rt.alloc(); "{capture_path}: {fault}, at byte {at}")?));
    }
    Ok(())
}

fn main(rt: HostRuntime) -> anyhow::Result<()> {
    run(&rt)
}
