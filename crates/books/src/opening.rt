use crate::asked::{Asked, USAGE, load};
use crate::choosing::{choose, given};
use crate::course::Course;
use crate::finding::find;
use crate::output::Output;
use crate::picture::Picture;
use crate::serving::Pass;
use crate::source::Source;
use crate::state::{Depth, State};
use crate::summary::summarize;
use crate::tables::Tells;
use crate::verdict::verdict;
use anyhow::anyhow;
use capture::fault::CaptureFault;
use layout::sheet::Sheet;
use message::values::Order;
use options::setting::{Flag, Setting};
use orders::opening::check_opening;
use orders::order_store::OrderStore;
use panel::panel_store::PanelStore;
use refusal::Refusal;
use replay::desk::Desk;
use settling::slots::all_different;
use settling::watch::Watch;
use std::fs;
use store::store::Store;

// The instruments as a receiver watches them.
fn watched(rt: &HostRuntime, course: &Course) -> anyhow::Result<Watch> {
    let ids = course.watch.as_slice();
    if ids.len() <= 64 && all_different(ids) {
        return Ok(Watch::new(ids));
    }
    eprintln!(rt; "books: --watch wants 1 to 64 instruments, each once")?;
    Err(anyhow!("the watch list cannot be used"))
}

// Opens a receiver over a store, and brings it the capture; a join that is held at the end is left.
fn serve<S: Store + Tells>(
    rt: &HostRuntime,
    store: &mut S,
    state: &mut State,
    source: Source,
) -> anyhow::Result<Result<(), CaptureFault>> {
    let sheet = state.sheet.clone()?;
    let shelf = vec![in rt.alloc(); 0u8; 44800]?;
    let Course {
        channel,
        version,
        ..
    } = state.course;
    match Desk::open(
        store,
        sheet,
        channel,
        version,
        1,
        state.course.watch.as_slice(),
    ) {
        Ok(desk) => {
            let mut pass = Pass {
                desk,
                store,
                shelf,
                state,
            };
            let whole = pass.attend(rt, source);
            let Pass {
                desk,
                store: _,
                shelf: _,
                state: _,
            } = pass;
            let _ = desk.close();
            whole
        }
        Err(fault) => {
            let refusal = Refusal::from(fault);
            eprintln!(rt;
                "books: refused {refusal}: --version wants 1 to 65534, --watch 1 to 64 instruments"
            )?;
            Err(anyhow!("no receiver can be opened with these options"))
        }
    }
}

// Rebuilds the books: of orders where there is a depth, else panels of statistics.
fn rebuild(
    rt: &HostRuntime,
    state: &mut State,
    source: Source,
) -> anyhow::Result<Result<(), CaptureFault>> {
    let Some(depth) = state.depth else {
        let mut store = PanelStore::open(&state.sheet);
        return serve(rt, &mut store, state, source);
    };
    let depth = depth.orders;
    let books = state.course.watch.len().saturating_add(1).max(2);
    let room = depth.saturating_mul(2).saturating_mul(books);
    let mut table = vec![in rt.alloc(); Order::default(); room]?;
    match check_opening(depth, table.len()) {
        Ok(()) => {
            let mut store = OrderStore::open(state.sheet.actions, depth, table.as_mut_slice());
            serve(rt, &mut store, state, source)
        }
        Err(_) => Err(anyhow!("no books can be opened with this depth")),
    }
}

// What is asked for, or else found by a first pass.
fn course(rt: &HostRuntime, asked: &Asked, path: &str, sheet: &Sheet) -> anyhow::Result<Course> {
    if let Some(course) = given(asked)? {
        return Ok(course);
    }
    let finding = find(rt, path, sheet)?;
    choose(rt, asked, &finding)
}

// Makes the table from the capture; the file has its name only once it is whole.
fn make(
    rt: &HostRuntime,
    asked: &Asked,
    sheet: &str,
    capture: &str,
    part: Option<&str>,
) -> anyhow::Result<()> {
    let sheet = load(rt, sheet)?;
    let course = course(rt, asked, capture, &sheet)?;
    let watch = watched(rt, &course)?;
    let source = Source {
        path: capture,
        progress: asked.words.is_raised(Flag::Progress),
    };
    let depth = if asked.words.is_raised(Flag::Panel) {
        None
    } else {
        Some(Depth {
            orders: asked.depth,
            full: false,
        })
    };
    let picture = asked
        .words
        .value(Setting::Coverage)
        .map(|path| Picture::new(rt.alloc(), path))
        .transpose()?;
    let out = Output::new(rt, part)?;
    let mut state = State::new(rt.alloc(), course, sheet, watch, depth, picture, out)?;
    let whole = rebuild(rt, &mut state, source)?;
    state.out.flush(rt)?;
    state.close_stretches();
    summarize(rt, &state)?;
    verdict(rt, capture, &state, whole)?;
    if let Some(picture) = &mut state.picture {
        picture.draw(rt, state.course.watch.as_slice(), state.heard)?;
    }
    Ok(())
}

// Builds the table that the command line asks for.
pub fn build(rt: &HostRuntime, asked: &Asked) -> anyhow::Result<()> {
    let (Some(sheet), Some(capture)) = (
        asked.words.value(Setting::Sheet),
        asked.words.value(Setting::Capture),
    ) else {
        return Err(anyhow!(USAGE));
    };
    match asked.words.value(Setting::Out) {
        None => make(rt, asked, sheet, capture, None),
        Some(path) => {
            let part = format!(in rt.alloc(); "{path}.part")?;
            make(rt, asked, sheet, capture, Some(part.as_str()))?;
            fs::rename(rt, part.as_str(), path)?;
            Ok(())
        }
    }
}
