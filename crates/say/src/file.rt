// A file, read into lent room.
ghost use Rattle.std.specs.Prelude.{◌≤◌, length, IfOk};

use std::fs::File;
use std::io;
use std::io::Read;
use std::rt::Files;

// Fills the room with what a file holds, as far as either goes, and answers how much that is.
pub fn read(rt: &impl Files, name: &str, space: &mut [u8]) -> io::Result<usize>
    ensures { IfOk result (λ n. n ≤ length space.new) }
{
    let mut file = File::open(rt, name)?;
    let mut size = 0;
    // Each turn reads a byte or more, so the room holds no more turns.
    for _ in 0..space.len() {
        let more = file.read(&mut space[size..])?;
        if more == 0 {
            return Ok(size);
        }
        size += more;
    }
    Ok(size)
}
