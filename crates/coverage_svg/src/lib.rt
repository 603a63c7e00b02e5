#![tactic(auto)]

pub mod axis;
pub mod drawing;
pub mod figures;
pub mod heading;
pub mod row;
pub mod sizes;
