#![tactic(auto)]

pub mod endpoint;
pub mod fault;
pub mod options;
pub mod setting;
pub mod taking;
pub mod words;
