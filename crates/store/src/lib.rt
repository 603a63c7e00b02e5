#![tactic(auto)]

pub mod fault;
pub mod refusals;
pub mod store;
