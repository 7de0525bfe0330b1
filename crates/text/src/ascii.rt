// Texts of ASCII bytes. Eight bytes, four or two are tested as one number. The last stretch ends where the text ends, so it may start in
// bytes that were tested before. The library's `is_ascii` takes half as long again at 12 to 23 bytes, as keys have.
ghost use Rattle.std.specs.Prelude.{◌≡◌, ◌+◌, ◌≤◌, length};
ghost use Rattle.words.specs.Store.{part};
ghost use Rattle.text.specs.Ascii.{is_ascii};

use words::field::{half_at, long_at, word_at};

// Whether the eight bytes from `at` on are ASCII: in the number that they spell, the highest bit of each byte is clear.
fn is_ascii_at(s: &[u8], at: usize) -> bool
    requires { at + 8 ≤ length s.now }
    ensures { result ≡ is_ascii (part s.now at 8) }
{
    long_at(s, at) & 0x8080_8080_8080_8080 == 0
}

// Whether a text of eight bytes or more is ASCII.
fn is_ascii_long(s: &[u8]) -> bool
    requires { 8 ≤ length s.now }
    ensures { result ≡ is_ascii s.now }
{
    for i in 0..(s.len() - 1) / 8 {
        if !is_ascii_at(s, 8 * i) {
            return false;
        }
    }
    let last = s.len() - 8;
    is_ascii_at(s, last)
}

// The same, of four to eight: by its first four bytes and its last four.
fn is_ascii_words(s: &[u8]) -> bool
    requires { (4 ≤ length s.now) × (length s.now ≤ 8) }
    ensures { result ≡ is_ascii s.now }
{
    let last = s.len() - 4;
    (word_at(s, 0) & 0x8080_8080 == 0) & (word_at(s, last) & 0x8080_8080 == 0)
}

// The same, of two to four.
fn is_ascii_halves(s: &[u8]) -> bool
    requires { (2 ≤ length s.now) × (length s.now ≤ 4) }
    ensures { result ≡ is_ascii s.now }
{
    let last = s.len() - 2;
    (half_at(s, 0) & 0x8080 == 0) & (half_at(s, last) & 0x8080 == 0)
}

// Whether a text is ASCII, byte by byte.
fn is_ascii_few(s: &[u8]) -> bool
    ensures { result ≡ is_ascii s.now }
{
    for b in s {
        if 0x7F < *b {
            return false;
        }
    }
    true
}

// Whether a text is ASCII.
pub fn is_ascii(s: &[u8]) -> bool
    ensures { result ≡ is_ascii s.now }
{
    if 8 <= s.len() {
        return is_ascii_long(s);
    }
    if 4 <= s.len() {
        return is_ascii_words(s);
    }
    if 2 <= s.len() {
        return is_ascii_halves(s);
    }
    is_ascii_few(s)
}
