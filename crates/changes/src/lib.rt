#![tactic(auto)]

pub mod due;
pub mod named;
pub mod naming;
