// Finding the item that a key names, in a manner of reading.
#![tactic(auto)]

pub mod find;
pub mod manner;
