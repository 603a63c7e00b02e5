#![tactic(auto)]

pub mod checked;
pub mod fault;
pub mod group;
pub mod head;
pub mod rules;
pub mod walk;
