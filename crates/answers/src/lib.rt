// What is read, checked and told of a header, as C is told it. An enum cannot cross, so an answer is a struct of numbers: the document's number, 0 for a
// success, and the values beside it, 0 on a refusal unless said otherwise; and what a number from C names.
#![tactic(auto)]

pub mod checking;
pub mod header;
pub mod manner;
pub mod reading;
