// The hash of a key, in both forms.
#![tactic(auto)]

pub mod hash;
