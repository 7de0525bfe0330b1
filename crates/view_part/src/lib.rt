// Parts of a lent file, and the numbers of an answer, that views are made of.
#![tactic(auto)]

pub mod part;
