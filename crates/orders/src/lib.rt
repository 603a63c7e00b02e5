#![tactic(auto)]

pub mod book_store;
pub mod books;
pub mod calls;
pub mod due;
pub mod edits;
pub mod entries;
pub mod listing;
pub mod opening;
pub mod order_store;
pub mod rows;
pub mod shows;
pub mod side;
pub mod side_edit;
pub mod sides;
