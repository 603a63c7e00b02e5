#![tactic(auto)]

mod asked;
mod choosing;
mod course;
mod finding;
mod help;
mod opening;
mod output;
mod picture;
mod serving;
mod source;
mod state;
mod summary;
mod tables;
mod told;
mod verdict;

use crate::asked::read_command;
use crate::opening::build;

fn run(rt: &HostRuntime) -> anyhow::Result<()> {
    match read_command(rt)? {
        Some(asked) => build(rt, &asked),
        None => {
            rt.print(help::TEXT)?;
            Ok(())
        }
    }
}

fn main(rt: HostRuntime) -> anyhow::Result<()> {
    run(&rt)
}
