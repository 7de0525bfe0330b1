// The table check: six rules, item by item. It is lent the file alone and covers the one table it is given.
#![tactic(auto)]

pub mod check;
