// Listing a table: its keys, its values, and the children of one container.
#![tactic(auto)]

pub mod children;
pub mod listing;
