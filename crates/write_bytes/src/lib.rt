// A numbered table measured, and laid as an image.
#![tactic(auto)]

pub mod measure;
pub mod table;
pub mod whole;
