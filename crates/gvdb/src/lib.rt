// The outside of the library: the functions that C and Rust call. Each answers with what the function behind it does, as numbers (crates `answers` and
// `answers_build`).
#![tactic(auto)]

pub mod building;
pub mod checking;
pub mod header;
pub mod reading;
pub mod writing;
