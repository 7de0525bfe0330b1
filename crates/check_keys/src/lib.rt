// The joined key of an item, which is never written out: its hash and length, and looking it up, on the way from the item to its root.
#![tactic(auto)]

mod front;
pub mod search;
