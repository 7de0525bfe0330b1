// A builder's tables: new ones, and the count of a table's items.
#![tactic(auto)]

pub mod add;
pub mod count;
