// The builder's insert over lent memory: the walk down a key's containers, and the insert of a value.
#![tactic(auto)]

pub mod insert;
mod walk;
