use crate::figures::Grouped;
use crate::sizes::{Span, TOP, place};
use coverage::geometry::step;
use std::fmt;

// The line and the figure of one number on the axis.
fn write_number(out: &mut String, number: u64, span: Span, bottom: u64) -> fmt::Result {
    let at = place(number.saturating_sub(span.first), span.numbers);
    let shown = Grouped(number);
    let end = bottom.saturating_add(5);
    let line = bottom.saturating_add(20);
    writeln!(out, "<path class=\"grid\" d=\"M{at} {TOP}V{end}\"/>")?;
    writeln!(
        out,
        "<text class=\"middle\" x=\"{at}\" y=\"{line}\">{shown}</text>"
    )?;
    Ok(())
}

// The axis at the bottom, with the round numbers among those that are told.
pub(crate) fn write_axis(out: &mut String, span: Span, bottom: u64) -> fmt::Result {
    let by = step(span.numbers).max(1);
    let from = span.first / by;
    for turn in 0..12 {
        let number = from.saturating_add(turn).saturating_mul(by);
        if number >= span.first && number - span.first < span.numbers {
            write_number(out, number, span, bottom)?;
        }
    }
    let line = bottom.saturating_add(42);
    writeln!(out, "<path class=\"axis\" d=\"M172 {bottom}H1132\"/>")?;
    writeln!(
        out,
        "<text class=\"middle\" x=\"652\" y=\"{line}\">packet number</text>"
    )?;
    Ok(())
}
