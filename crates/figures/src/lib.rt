#![tactic(auto)]

pub mod figures;
pub mod sides;
pub mod spread;
