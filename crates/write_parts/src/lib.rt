// The parts of a table's bytes: head, filter, words, records, keys.
#![tactic(auto)]

pub mod numbered;
pub mod put;
pub mod slot;
