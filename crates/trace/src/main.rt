#![tactic(auto)]

mod fault;
mod lines;
mod opening;
mod service;
mod serving;
mod session;
mod shows;
mod telling;

use crate::lines::Lines;
use crate::serving::{begin, idle};
use crate::session::Session;
use std::io::Read;

fn run(rt: &HostRuntime) -> anyhow::Result<()> {
    let mut input = Vec::new(rt.alloc());
    let _ = rt.stdin().read_to_end(&mut input)?;
    let mut session = Session::new(rt.alloc());
    let mut lines = Lines {
        rest: input.as_slice(),
        number: 0,
    };
    let mut next = idle(rt, &mut session, &mut lines)?;
    // each opening has a line of its own, so that there are at most as many as bytes
    for _ in 0..input.len() {
        let Some(opening) = next else {
            break;
        };
        next = begin(rt, &mut session, &mut lines, opening)?;
    }
    rt.print(session.out.as_str())?;
    Ok(())
}

fn main(rt: HostRuntime) -> anyhow::Result<()> {
    run(&rt)
}
