// The insert of a table into another table of the builder.
#![tactic(auto)]

mod height;
pub mod insert;
