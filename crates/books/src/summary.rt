use crate::course::Lane;
use crate::state::State;
use crate::told::Told;
use destinations::refusals::First;
use refusal::Reason;
use shares::noting::hundredths;

// What became of the packets of one destination.
fn write_lane(out: &mut String, lane: &Lane) -> anyhow::Result<()> {
    let Lane { role, to, received } = lane;
    let taken = received.taken;
    let repeated = received.repeated;
    let late = received.refusals.of(Reason::Late).count;
    writeln!(
        out,
        "{role} {to}: {taken} taken, {repeated} repeated, {late} late"
    )?;
    for reason in Reason::ALL {
        let number = reason.number();
        let refused = received.refusals.of(reason);
        if let Some(First { place, index }) = refused.first {
            let count = refused.count;
            writeln!(
                out,
                "  refused {number} {reason}: {count}, first at byte {place} in record {index}"
            )?;
        }
    }
    Ok(())
}

// A share of the packets, in percent.
fn write_share(out: &mut String, word: &str, part: u64, whole: u64) -> anyhow::Result<()> {
    let share = hundredths(part, whole);
    let units = share / 100;
    let rest = share % 100;
    write!(out, " {word} {units}.{rest:02}% ({part})")?;
    Ok(())
}

// At which share of the packets a book had each mark, and its longest stale stretch.
fn write_told(out: &mut String, told: &Told) -> anyhow::Result<()> {
    let instrument = told.instrument;
    let share = &told.share;
    let packets = share.packets();
    write!(out, "instrument {instrument}:")?;
    write_share(out, "current", share.current, packets)?;
    write_share(out, "recovering", share.recovering, packets)?;
    write_share(out, "stale", share.stale, packets)?;
    if let Some(longest) = share.longest {
        let length = longest.packets;
        let from = longest.from;
        let to = longest.to;
        write!(
            out,
            ", longest stale stretch {length} packets, heard {from} to {to}"
        )?;
    }
    writeln!(out, "")?;
    Ok(())
}

// Writes the summary of a pass.
pub fn summarize(rt: &HostRuntime, state: &State) -> anyhow::Result<()> {
    let mut out = String::new(rt.alloc());
    for lane in &state.lanes {
        write_lane(&mut out, lane)?;
    }
    let packets = state.packets;
    let adoptions = state.adoptions;
    let records = state.records;
    let rows = state.out.rows;
    writeln!(
        &mut out,
        "records {records}, packets taken {packets}, adoptions {adoptions}"
    )?;
    for told in &state.told {
        write_told(&mut out, told)?;
    }
    writeln!(&mut out, "rows {rows}")?;
    rt.eprint(out.as_str())?;
    Ok(())
}
