// Document 01's worked numbers as the code answers them, small files read by every call, and the boundary cases of UTF-8 and of opening. What it writes is held to the
// file stdout. Buffers are arrays of a fixed length, as a caller lends them: there is no heap.
#![tactic(auto)]

use std::io;

mod header;
mod layered;
mod open;
mod root;
mod seen;
mod small;
mod tour;
mod utf8;

fn main(rt: HostRuntime) -> io::Result<()> {
    small::hashes(&rt)?;
    small::alignments(&rt)?;
    small::blooms(&rt)?;
    small::prefixes(&rt)?;
    small::orders(&rt)?;
    utf8::sequences(&rt)?;
    open::pointers(&rt)?;
    open::tables(&rt)?;
    header::headers(&rt)?;
    tour::files(&rt)?;
    seen::files(&rt)?;
    layered::files(&rt)
}
