// Document 01's worked images and document 02's with filter words as the code lays them, and the limits from both sides. What it writes is held to the file
// stdout. Buffers are arrays of a fixed length, as a caller lends them: there is no heap.
#![tactic(auto)]

use std::io;

mod filter;
mod laid;

fn main(rt: HostRuntime) -> io::Result<()> {
    laid::tables(&rt)?;
    filter::tables(&rt)
}
