// Tests of the capture crate on small files that are built here.
#![tactic(auto)]

pub mod answer;
pub mod build;
pub mod cases;
