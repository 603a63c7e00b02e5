#![tactic(auto)]

pub mod band;
pub mod cells;
pub mod coverage;
pub mod fault;
pub mod geometry;
pub mod levels;
pub mod noting;
pub mod reading;
pub mod runs;
pub mod shade;
pub mod turning;
pub mod watching;
