use crate::sums::Sums;
use destinations::counts::Counts;
use destinations::destination::{Destination, Flow};
use destinations::refusals::First;
use destinations::table::Table;
use layout::kinds::Kind;
use refusal::Reason;

// A figure on a line of its own.
fn figure(out: &mut String, name: &str, value: u64) -> anyhow::Result<()> {
    writeln!(out, "  {name:<16}{value:>12}")?;
    Ok(())
}

// the kinds of messages as they are listed; `None` is the kind of templates that the sheet does not list
const KINDS: [Option<Kind>; 8] = [
    Some(Kind::Order),
    Some(Kind::Delete),
    Some(Kind::Mass),
    Some(Kind::Empty),
    Some(Kind::Stat),
    Some(Kind::Header),
    Some(Kind::Entries),
    None,
];

// The messages by kind, but for the kinds that did not come.
fn write_kinds(out: &mut String, counts: &Counts) -> anyhow::Result<()> {
    figure(out, "messages", counts.all_messages())?;
    for kind in KINDS {
        let count = counts.of(kind);
        if count > 0 {
            match kind {
                Some(kind) => writeln!(out, "    {kind:<14}{count:>12}")?,
                None => figure(out, "  other", count)?,
            }
        }
    }
    Ok(())
}

// The refused datagrams by reason, each with the first.
fn write_reasons(out: &mut String, counts: &Counts) -> anyhow::Result<()> {
    figure(out, "refused", counts.refusals.total())?;
    for reason in Reason::ALL {
        let refused = counts.refusals.of(reason);
        if let Some(First { place, index }) = refused.first {
            let number = reason.number();
            let count = refused.count;
            writeln!(
                out,
                "    {number} {reason:<12}{count:>12}   first at byte {place}, record {index}"
            )?;
        }
    }
    Ok(())
}

// The one channel and version, or how many there are.
fn write_identity(out: &mut String, flows: &[Flow]) -> anyhow::Result<()> {
    match flows {
        [] => Ok(()),
        [flow] => {
            figure(out, "channel", u64::from(flow.channel))?;
            figure(out, "version", u64::from(flow.version))
        }
        _ => figure(out, "streams", flows.len() as u64),
    }
}

fn write_sums(out: &mut String, sums: &Sums) -> anyhow::Result<()> {
    if let Some(first) = sums.first {
        figure(out, "first", u64::from(first))?;
    }
    if let Some(last) = sums.last {
        figure(out, "last", u64::from(last))?;
    }
    figure(out, "missing", sums.missing)?;
    figure(out, "repeated", sums.repeated)?;
    figure(out, "out of order", sums.late)
}

// All figures of a destination.
pub fn write_destination(out: &mut String, d: &Destination) -> anyhow::Result<()> {
    let to = d.to;
    writeln!(out, "{to}")?;
    figure(out, "packets", d.packets)?;
    write_identity(out, d.flows.as_slice())?;
    write_sums(out, &Sums::of(d.flows.as_slice()))?;
    write_kinds(out, &d.counts)?;
    write_reasons(out, &d.counts)
}

// The figures of all destinations, and the records that were passed over.
pub fn write_total(out: &mut String, table: &Table) -> anyhow::Result<()> {
    let mut packets: u64 = 0;
    let mut messages: u64 = 0;
    let mut refused: u64 = 0;
    let mut sums = Sums::default();
    for d in table.destinations.as_slice() {
        packets = packets.saturating_add(d.packets);
        messages = messages.saturating_add(d.counts.all_messages());
        refused = refused.saturating_add(d.counts.refusals.total());
        sums.add(d.flows.as_slice());
    }
    writeln!(out, "total")?;
    figure(out, "destinations", table.destinations.len() as u64)?;
    figure(out, "packets", packets)?;
    figure(out, "missing", sums.missing)?;
    figure(out, "repeated", sums.repeated)?;
    figure(out, "out of order", sums.late)?;
    figure(out, "messages", messages)?;
    figure(out, "refused", refused)?;
    figure(out, "records", table.records)?;
    figure(out, "  datagrams", table.tally.datagrams)?;
    figure(out, "  cut", table.tally.cut)?;
    figure(out, "  fragments", table.tally.fragments)?;
    figure(out, "  other", table.tally.other)
}

#[cfg(test)]
mod tests {
    use super::KINDS;
    use layout::kinds::Kind;

    // Each kind is listed once, at its place, and the templates of none come last.
    #[test]
    fn kinds_at_their_places(rt: HostRuntime) {
        for (place, kind) in KINDS.iter().enumerate() {
            assert!(rt; kind.map_or(7, |kind: Kind| kind as usize) == place);
        }
    }
}
