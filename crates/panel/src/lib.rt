#![tactic(auto)]

pub mod calls;
pub mod listed;
pub mod notes;
pub mod numbers;
pub mod opening;
pub mod panel_store;
pub mod shows;
