#![tactic(auto)]

pub mod answers;
pub mod fault;
pub mod guarantee;
pub mod marks;
