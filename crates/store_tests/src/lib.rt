#![tactic(auto)]

pub mod counts;
pub mod tally;
#[cfg(test)]
mod walks;
