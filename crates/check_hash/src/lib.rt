// The hash and the length of an item's joined key, on the way from the item to its root.
#![tactic(auto)]

pub mod tally;
