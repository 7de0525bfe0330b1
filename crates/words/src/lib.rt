// Leaves on numbers: little-endian fields and stores, the hash of a key, alignment, bits.
#![tactic(auto)]

pub mod align;
pub mod bits;
pub mod field;
pub mod store;
