// The chain of an item: its parents up to the root, and whether they name a key.
#![tactic(auto)]

pub mod chain;
