// What the programs share: words for standard output, and the reading of a file.
#![tactic(auto)]

use std::io;

pub mod file;

// The bytes in hexadecimal, and a space.
pub fn bytes(rt: &impl Print, s: &[u8]) -> io::Result<()> {
    for b in s {
        print!(rt; "{b:02x} ")?;
    }
    Ok(())
}

// A pointer: its start and its end.
pub fn place(rt: &impl Print, start: u32, end: u32) -> io::Result<()> {
    print!(rt; " {start} to {end}")
}

pub fn yes_no(rt: &impl Print, b: bool) -> io::Result<()> {
    print!(rt; "{}", if b { "yes" } else { "no" })
}
