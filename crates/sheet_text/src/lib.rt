#![tactic(auto)]

mod building;
pub mod filling;
mod follows;
mod line;
mod names;
mod opening;
mod reading;
mod refusals;
pub mod text;
pub mod types;
