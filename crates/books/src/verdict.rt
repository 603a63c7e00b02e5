use crate::finding::find;
use crate::state::State;
use anyhow::anyhow;
use capture::fault::CaptureFault;
use destinations::received::Received;
use refusal::Reason;

// Says where a capture is damaged.
fn damage(rt: &HostRuntime, path: &str, whole: Result<(), CaptureFault>) -> anyhow::Result<()> {
    if let Err(fault) = whole {
        let at = fault.offset();
        eprintln!(rt;
            "books: {path}: {fault}, at byte {at}; the rows end with the packet before it"
        )?;
        return Err(anyhow!("the capture is damaged, so that the table is not whole"));
    }
    Ok(())
}

// Says of a destination to which nothing came, or whose packets were all refused, why.
fn feed(rt: &HostRuntime, path: &str, state: &State, received: &Received) -> anyhow::Result<()> {
    if received.taken > 0 || received.repeated > 0 {
        return Ok(());
    }
    let refused = received.refusals.total();
    if refused == 0 {
        find(rt, path, &state.sheet)?.list(rt)?;
        return Err(anyhow!(
            "no packet came to one of the destinations; take it from the list above"
        ));
    }
    if received.refusals.of(Reason::Block).count == refused {
        return Err(anyhow!(
            "every packet was refused as block: the sheet does not fit the channel"
        ));
    }
    if received.refusals.of(Reason::Channel).count == refused {
        return Err(anyhow!("every packet was refused as channel: --channel is another one's"));
    }
    if received.refusals.of(Reason::Version).count == refused {
        return Err(anyhow!("every packet was refused as version: --version is another one's"));
    }
    Err(anyhow!("every packet of a destination was refused, for the reasons above"))
}

// Names the instruments of which nothing came.
fn absent(rt: &HostRuntime, state: &State) -> anyhow::Result<()> {
    let mut missing = 0u64;
    for (slot, told) in state.told.iter().enumerate() {
        if state.named.latest_of(slot) == 0 {
            let instrument = told.instrument;
            eprintln!(rt; "books: instrument {instrument} is named by no packet that was taken")?;
            missing = missing.saturating_add(1);
        }
    }
    if missing > 0 {
        return Err(anyhow!(
            "an instrument never appears; take it out of --watch, or look for its number"
        ));
    }
    Ok(())
}

// Says where the depth was too small.
fn shallow(rt: &HostRuntime, state: &State) -> anyhow::Result<()> {
    let Some(depth) = state.depth else {
        return Ok(());
    };
    let orders = depth.orders;
    let deepest = state.named.deepest;
    if deepest > orders as u64 {
        if deepest <= 1024 {
            eprintln!(rt; "books: a side has {deepest} orders: give --depth {deepest} or more")?;
        } else {
            eprintln!(rt;
                "books: a side has {deepest} orders, more than the 1024 that can be kept"
            )?;
        }
        return Err(anyhow!("--depth is too small, so that a book got stale"));
    }
    if depth.full {
        eprintln!(rt;
            "books: a side was full when a book got stale: more than --depth {orders} may keep it longer"
        )?;
    }
    Ok(())
}

// Whether the table of a pass is whole; else what is to be done.
pub fn verdict(
    rt: &HostRuntime,
    path: &str,
    state: &State,
    whole: Result<(), CaptureFault>,
) -> anyhow::Result<()> {
    damage(rt, path, whole)?;
    for lane in &state.lanes {
        feed(rt, path, state, &lane.received)?;
    }
    shallow(rt, state)?;
    absent(rt, state)
}
