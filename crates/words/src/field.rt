// Little-endian numbers in a slice: 16, 32 and 64 bits wide. A function for each width: a trait over the three would be longer than their bodies.
ghost use Rattle.std.specs.Prelude.{◌≡◌, ◌+◌, ◌≤◌, length};
ghost use Rattle.words.specs.Field.{half_at, word_at, long_at, spelled};
ghost use Rattle.words.specs.Store.{put_at};

use crate::store::put;

// The four bytes from `at` on, as a number, lowest byte first.
pub fn word_at(file: &[u8], at: usize) -> u32
    requires { at + 4 ≤ length file.now }
    ensures { result ≡ word_at file.now at }
{
    u32::from_le_bytes([file[at], file[at + 1], file[at + 2], file[at + 3]])
}

// The eight bytes from `at` on, as a number, lowest byte first.
pub fn long_at(file: &[u8], at: usize) -> u64
    requires { at + 8 ≤ length file.now }
    ensures { result ≡ long_at file.now at }
{
    u64::from_le_bytes([
        file[at],
        file[at + 1],
        file[at + 2],
        file[at + 3],
        file[at + 4],
        file[at + 5],
        file[at + 6],
        file[at + 7],
    ])
}

// The two bytes from `at` on, as a number, lowest byte first.
pub fn half_at(file: &[u8], at: usize) -> u16
    requires { at + 2 ≤ length file.now }
    ensures { result ≡ half_at file.now at }
{
    u16::from_le_bytes([file[at], file[at + 1]])
}

// Stores `w` in the four bytes from `at` on, lowest byte first.
pub fn put_word(out: &mut [u8], at: usize, w: u32)
    requires { at + 4 ≤ length out.old }
    ensures { out.new ≡ put_at out.old at (spelled 4 w) }
{
    put(out, at, &w.to_le_bytes());
}

// Stores `w` in the two bytes from `at` on, lowest byte first.
pub fn put_half(out: &mut [u8], at: usize, w: u16)
    requires { at + 2 ≤ length out.old }
    ensures { out.new ≡ put_at out.old at (spelled 2 w) }
{
    put(out, at, &w.to_le_bytes());
}
