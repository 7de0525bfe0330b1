// The numbered table of a builder's memory, slot by slot.
#![tactic(auto)]

mod children;
pub mod numbered;
mod slot;
