// Two tables through views, one over the other.
#![tactic(auto)]

pub mod layered;
