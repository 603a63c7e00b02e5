#![tactic(auto)]

pub mod count;
pub mod counts;
pub mod destination;
pub mod feeds;
pub mod find;
pub mod flows;
pub mod received;
pub mod receiving;
pub mod refusals;
pub mod table;
