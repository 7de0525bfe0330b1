// The indices of the items of one table, bucket by bucket.
#![tactic(auto)]

pub mod buckets;
pub mod falling;
pub mod items;
