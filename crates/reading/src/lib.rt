#![tactic(auto)]

pub mod filling;
pub mod reader;
pub mod showing;
pub mod window;
