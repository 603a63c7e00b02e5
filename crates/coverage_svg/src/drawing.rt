use crate::axis::write_axis;
use crate::heading::{write_frame, write_heading};
use crate::row::write_row;
use crate::sizes::{Span, rows_for};
use coverage::coverage::Coverage;
use std::fmt;

// Writes the picture as SVG, with the instruments of the bands in their order; an error says that memory ran out.
pub fn draw(coverage: &Coverage, instruments: &[u64], out: &mut String) -> fmt::Result {
    let bands = coverage.bands();
    let rows = rows_for(bands.len());
    let size = rows.text;
    let bottom = rows.top(bands.len()).saturating_add(8);
    write_frame(out, bottom.saturating_add(56))?;
    writeln!(out, "<g font-size=\"{size}\">")?;
    if let Some(band) = bands.first() {
        write_axis(out, Span::of(band), bottom)?;
    }
    for (row, (band, instrument)) in bands.iter().zip(instruments).enumerate() {
        write_row(out, band, *instrument, rows, rows.top(row))?;
    }
    writeln!(out, "</g>")?;
    if let Some(band) = bands.first() {
        write_heading(out, Span::of(band), band.shades().width())?;
    }
    writeln!(out, "</svg>")?;
    Ok(())
}
