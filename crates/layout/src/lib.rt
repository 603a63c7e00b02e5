#![tactic(auto)]

pub mod find;
pub mod kinds;
pub mod making;
pub mod reach;
pub mod sheet;
pub mod template;
pub mod width;
pub mod wire;
