#![tactic(auto)]

pub mod count;
pub mod endpoint;
pub mod fault;
pub mod file;
pub mod format;
pub mod frame;
pub mod header;
pub mod network;
pub mod order;
pub mod part;
pub mod read;
pub mod record;
pub mod step;
pub mod tally;
pub mod walk;
