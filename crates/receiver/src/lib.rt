#![tactic(auto)]

pub mod calls;
pub mod checks;
pub mod groups;
pub mod join;
pub mod messages;
pub mod opening;
pub mod plain;
pub mod receiver;
pub mod renewal;
pub mod snapshot;
pub mod standings;
pub mod subscription;
