use crate::fault::LineFault;
use crate::lines::Lines;
use crate::opening::{Choice, Opening};
use crate::service::Service;
use crate::session::Session;
use crate::shows::Shows;
use message::values::Order;
use orders::opening::check_opening;
use orders::order_store::OrderStore;
use panel::panel_store::PanelStore;
use replay::desk::Desk;
use replay::tape::Tape;
use store::store::Store;

// Answers lines by `take`, up to the first that makes an opening.
fn each_line<F: FnMut(&mut Session, &[u8]) -> Result<Option<Opening>, LineFault>>(
    rt: &HostRuntime,
    session: &mut Session,
    lines: &mut Lines,
    mut take: F,
) -> anyhow::Result<Option<Opening>>
    requires { F.IsAlwaysCallable take }
{
    for line in lines {
        if line.is_spoken() {
            match take(session, line.text) {
                Ok(None) => {}
                Ok(Some(opening)) => return Ok(Some(opening)),
                Err(LineFault::Unknown) => {
                    let number = line.number;
                    writeln!(&mut session.out, "what {number}")?;
                }
                Err(LineFault::Memory(error)) => return Err(error.into()),
            }
            session.print_block(rt)?;
        }
    }
    Ok(None)
}

// Answers lines before the first opening, or after one that was refused.
pub fn idle(
    rt: &HostRuntime,
    session: &mut Session,
    lines: &mut Lines,
) -> anyhow::Result<Option<Opening>> {
    each_line(rt, session, lines, |session, line| session.take_line(line))
}

// Answers lines at a receiver.
fn attend<S: Store + Shows>(
    rt: &HostRuntime,
    session: &mut Session,
    lines: &mut Lines,
    service: &mut Service<S>,
) -> anyhow::Result<Option<Opening>> {
    writeln!(&mut session.out, "opened")?;
    let next = each_line(rt, session, lines, |session, line| {
        service.take_line(session, line)
    })?;
    if next.is_none() {
        service.perform(session)?;
    }
    Ok(next)
}

// Opens a receiver over a store and serves it; a join that is held at the end is left.
fn serve<S: Store + Shows>(
    rt: &HostRuntime,
    session: &mut Session,
    lines: &mut Lines,
    store: &mut S,
    opening: Opening,
) -> anyhow::Result<Option<Opening>> {
    let Opening {
        choice: _,
        sheet,
        own,
        channel,
        version,
        ids,
    } = opening;
    let shelf = vec![in session.heap; 0u8; 44800]?;
    let tape = Tape::new(session.heap);
    match Desk::open(store, sheet, channel, version, own, ids.as_slice()) {
        Ok(desk) => {
            let mut service = Service {
                desk,
                store,
                shelf,
                tape,
            };
            let next = attend(rt, session, lines, &mut service);
            let Service {
                desk,
                store: _,
                shelf: _,
                tape: _,
            } = service;
            let _ = desk.close();
            next
        }
        Err(fault) => {
            session.refuse(fault)?;
            idle(rt, session, lines)
        }
    }
}

// Opens the store that was chosen, and serves a receiver over it; the next opening that is taken.
pub fn begin(
    rt: &HostRuntime,
    session: &mut Session,
    lines: &mut Lines,
    opening: Opening,
) -> anyhow::Result<Option<Opening>> {
    match opening.choice {
        Choice::Panel => {
            let mut store = PanelStore::open(&opening.sheet);
            serve(rt, session, lines, &mut store, opening)
        }
        Choice::Orders {
            depth,
            room,
            slots: _,
        } => {
            let mut table = vec![in session.heap; Order::default(); room]?;
            if let Err(fault) = check_opening(depth, table.len()) {
                session.refuse(fault)?;
                return idle(rt, session, lines);
            }
            let actions = opening.sheet.actions;
            let mut store = OrderStore::open(actions, depth, table.as_mut_slice());
            serve(rt, session, lines, &mut store, opening)
        }
    }
}
