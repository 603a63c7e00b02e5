use crate::figures::Tenths;
use crate::sizes::{Rows, place};
use coverage::band::Band;
use coverage::shade::Shade;
use std::fmt;

// where boxes of one height stand
#[derive(Clone, Copy)]
struct Strip {
    top: u64,
    height: u64,
}

// The box of some columns, from the left edge to the right one.
fn write_box(out: &mut String, left: Tenths, right: Tenths, strip: Strip) -> fmt::Result {
    let Strip { top, height } = strip;
    write!(out, "M{left} {top}H{right}")?;
    write!(out, "v{height}H{left}z")?;
    Ok(())
}

// The columns of one shade, as boxes of one height.
fn write_shade(out: &mut String, band: &Band, shade: Shade, strip: Strip) -> fmt::Result {
    let numbers = band.numbers();
    let columns = band.shades();
    write!(out, "<path class=\"{shade}\" d=\"")?;
    for run in columns.runs() {
        if run.level == shade.level() {
            let left = place(columns.edge(run.from), numbers);
            let right = place(columns.edge(run.end), numbers);
            write_box(out, left, right, strip)?;
        }
    }
    writeln!(out, "\"/>")?;
    Ok(())
}

// A mark above each column in which a snapshot was adopted.
fn write_adoptions(out: &mut String, band: &Band, top: u64, tick: u64) -> fmt::Result {
    let numbers = band.numbers();
    let columns = band.adoptions();
    let half = tick / 2;
    write!(out, "<path class=\"adopted\" d=\"")?;
    for run in columns.runs() {
        if run.level > 0 {
            for column in run.from..run.end {
                let at = place(columns.edge(column), numbers);
                write!(out, "M{at} {top}l-{half} -{tick}h{tick}z")?;
            }
        }
    }
    writeln!(out, "\"/>")?;
    Ok(())
}

// The band itself: stale columns empty, recovering ones hatched and of half the height, current ones full.
fn write_band(out: &mut String, band: &Band, rows: Rows, top: u64) -> fmt::Result {
    let height = rows.band;
    let half = height / 2;
    let full = Strip { top, height };
    let lower = Strip {
        top: top.saturating_add(height - half),
        height: half,
    };
    write_shade(out, band, Shade::Stale, full)?;
    write_shade(out, band, Shade::Recovering, lower)?;
    write_shade(out, band, Shade::Current, full)?;
    write_adoptions(out, band, top, rows.tick)
}

// One instrument's row: its name, its band, and at which part of the numbers its book was current.
pub(crate) fn write_row(
    out: &mut String,
    band: &Band,
    instrument: u64,
    rows: Rows,
    row_top: u64,
) -> fmt::Result {
    let top = row_top.saturating_add(rows.pitch.saturating_sub(rows.band));
    let line = top
        .saturating_add(rows.band / 2)
        .saturating_add(rows.text / 3);
    let share = Tenths(band.share());
    writeln!(
        out,
        "<text class=\"end\" x=\"162\" y=\"{line}\">{instrument}</text>"
    )?;
    write_band(out, band, rows, top)?;
    writeln!(
        out,
        "<text class=\"end\" x=\"1194\" y=\"{line}\">{share} %</text>"
    )?;
    Ok(())
}
