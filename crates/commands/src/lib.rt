#![tactic(auto)]

pub mod command;
pub mod digest;
pub mod number;
pub mod parse;
pub mod verb;
