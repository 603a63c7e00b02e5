#![tactic(auto)]

pub mod call;
pub mod desk;
pub mod entry;
pub mod joins;
pub mod opening;
pub mod performing;
pub mod rows;
pub mod standings;
pub mod tape;
pub mod taping;
