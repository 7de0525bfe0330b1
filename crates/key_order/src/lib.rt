// Keys beside each other: equal bytes, byte order, and the prefixes of a key.
#![tactic(auto)]

pub mod compare;
pub mod keyorder;
pub mod prefix;
