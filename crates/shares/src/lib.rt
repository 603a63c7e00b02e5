#![tactic(auto)]

pub mod noting;
pub mod share;
