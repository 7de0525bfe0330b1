// A write: the image of a table of the builder, laid into a lent buffer.
#![tactic(auto)]

mod empty;
pub mod write;

use layout::refusal::Refusal;

// A written image: its root pointer and its length.
#[derive(Clone, Copy)]
pub struct Image {
    pub start: u32,
    pub end: u32,
    pub length: u32,
}
