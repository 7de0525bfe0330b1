// Views: structs that hold a lent file, and thin functions over them.
#![tactic(auto)]

pub mod table;
