#![tactic(auto)]

pub mod fields;
pub mod message;
pub mod values;
