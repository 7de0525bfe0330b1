// How a file is laid out: limits and sizes, the header, refusals and their numbers, kinds, pointers, items, tables.
#![tactic(auto)]

pub mod item;
pub mod kind;
pub mod limits;
pub mod pointer;
pub mod refusal;
pub mod sizes;
pub mod table;
