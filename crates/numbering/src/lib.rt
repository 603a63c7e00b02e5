#![tactic(auto)]

pub mod edit;
pub mod figures;
pub mod note;
pub mod numbers;
pub mod place;
pub mod seen;
pub mod span;
pub mod spans;
pub mod stream;
