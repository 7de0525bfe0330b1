// The check's six rules, one by one, and its walk over all containers.
#![tactic(auto)]

pub mod bits;
pub mod checked;
pub mod rules;
pub mod survey;
