use crate::figures::Grouped;
use crate::sizes::Span;
use std::fmt;
use std::fmt::Write;

// what the forms look like, and the legend: dark and full for current, hatched and of half the height for recovering, an
// empty outline for stale, so that they are told apart without colour
const FORMS: &str = "<style>
text { font-family: Helvetica, Arial, sans-serif; fill: #111 }
.end { text-anchor: end }
.middle { text-anchor: middle }
.current { fill: #1f3f6b }
.recovering { fill: url(#hatch); stroke: #8a5a00; stroke-width: 0.5 }
.stale { fill: #fff; stroke: #777; stroke-width: 0.8 }
.adopted { fill: #111 }
.grid { stroke: #d0d0d0 }
.axis { stroke: #111 }
</style>
<defs><pattern id=\"hatch\" width=\"4\" height=\"4\" patternUnits=\"userSpaceOnUse\" patternTransform=\"rotate(45)\"><rect width=\"4\" height=\"4\" fill=\"#f6dfb8\"/><rect width=\"1.6\" height=\"4\" fill=\"#9a6400\"/></pattern></defs>
<rect width=\"100%\" height=\"100%\" fill=\"#fff\"/>
<g font-size=\"13\">
<path class=\"current\" d=\"M172 74h34v16h-34z\"/><text x=\"214\" y=\"87\">current</text>
<path class=\"recovering\" d=\"M298 82h34v8h-34z\"/><text x=\"340\" y=\"87\">recovering: figures of an earlier packet</text>
<path class=\"stale\" d=\"M604 74h34v16h-34z\"/><text x=\"646\" y=\"87\">stale: no figures</text>
<path class=\"adopted\" d=\"M792 89l-4 -8h8z\"/><text x=\"806\" y=\"87\">snapshot adopted</text>
</g>
";

// The picture's frame, its forms and their legend.
pub(crate) fn write_frame(out: &mut String, high: u64) -> fmt::Result {
    writeln!(
        out,
        "<svg xmlns=\"http://www.w3.org/2000/svg\" viewBox=\"0 0 1216 {high}\" width=\"1216\" height=\"{high}\">"
    )?;
    out.write_str(FORMS)
}

// The title, and what a column and the figures at the right say.
pub(crate) fn write_heading(out: &mut String, span: Span, width: u64) -> fmt::Result {
    let from = Grouped(span.first);
    let last = Grouped(span.first.saturating_add(span.numbers.saturating_sub(1)));
    let width = Grouped(width);
    write!(
        out,
        "<text x=\"172\" y=\"32\" font-size=\"20\" font-weight=\"bold\">Where the books can be used: packets "
    )?;
    writeln!(out, "{from} to {last}</text>")?;
    write!(
        out,
        "<g font-size=\"13\"><text x=\"172\" y=\"56\">Width of a column in packet numbers: {width}; it shows "
    )?;
    write!(
        out,
        "the worst mark within. At the right, the share of packet numbers at which the book was current.</text>"
    )?;
    write!(
        out,
        "<text class=\"end\" x=\"162\" y=\"110\">instrument</text>"
    )?;
    writeln!(
        out,
        "<text class=\"end\" x=\"1194\" y=\"110\">current</text></g>"
    )?;
    Ok(())
}
