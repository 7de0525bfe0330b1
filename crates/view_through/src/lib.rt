// From a file to a value's bytes, by way of views.
#![tactic(auto)]

pub mod through;
