// The items of every table in the order in which they are laid: the roster.
#![tactic(auto)]

pub mod collect;
pub mod fill;
pub mod roster;
pub mod table;
