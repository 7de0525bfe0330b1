// Each answer to a builder's call and to a write as C is told it: a struct of numbers, as in `answers`.
#![tactic(auto)]

pub mod building;
pub mod writing;
