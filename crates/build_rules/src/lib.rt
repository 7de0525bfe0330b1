// Whether a builder's memory is fully valid, which a write asks for.
#![tactic(auto)]

mod guest;
mod item;
pub mod judge;
