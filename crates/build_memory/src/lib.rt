// The lent memory of a builder: words and an arena. Reads that no content can take out of range, stores, and the rules behind 29.
#![tactic(auto)]

pub mod fields;
pub mod find;
pub mod fresh;
pub mod item;
pub mod rules;
