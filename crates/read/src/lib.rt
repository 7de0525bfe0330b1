// Reading a table: an item's key through its parents, and lookup of a key in one table or in one over another.
#![tactic(auto)]

pub mod layered;
pub mod lookup;
