// UTF-8 as RFC 3629, section 4, has it. `str::from_utf8` does not stand in for this code: it is the grammar of the definitions, rule by rule, and the
// edits `surrogates_allowed` and `cut_character_passes` each change one of its lines.
ghost use Rattle.std.specs.Prelude.{◌≡◌, ◌<◌, length, get_or, drop};
ghost use Rattle.text.specs.Utf8.{between, tail, starts_three, starts_four, sequence_len, step_len, first_bad, is_utf8, starts_whole};

use crate::ascii::is_ascii;

fn is_between(low: u8, high: u8, b: u8) -> bool
    ensures { result ≡ between low high b }
{
    (low <= b) & (b <= high)
}

fn is_tail(b: u8) -> bool
    ensures { result ≡ tail b }
{
    is_between(0x80, 0xBF, b)
}

// The first two bytes of UTF8-3.
fn starts_three(b0: u8, b1: u8) -> bool
    ensures { result ≡ starts_three b0 b1 }
{
    ((b0 == 0xE0) & is_between(0xA0, 0xBF, b1))
        | ((is_between(0xE1, 0xEC, b0) & is_tail(b1))
            | (((b0 == 0xED) & is_between(0x80, 0x9F, b1))
                | (is_between(0xEE, 0xEF, b0) & is_tail(b1))))
}

// The first two bytes of UTF8-4.
fn starts_four(b0: u8, b1: u8) -> bool
    ensures { result ≡ starts_four b0 b1 }
{
    ((b0 == 0xF0) & is_between(0x90, 0xBF, b1))
        | ((is_between(0xF1, 0xF3, b0) & is_tail(b1)) | ((b0 == 0xF4) & is_between(0x80, 0x8F, b1)))
}

// How many of four bytes are one character, or 0. No `Option`, here and in `step_len`: the definitions answer 0.
fn sequence_len(b0: u8, b1: u8, b2: u8, b3: u8) -> usize
    ensures { result ≡ sequence_len b0 b1 b2 b3 }
{
    if b0 <= 0x7F {
        return 1;
    }
    let two = is_between(0xC2, 0xDF, b0) & is_tail(b1);
    if two {
        return 2;
    }
    let three = starts_three(b0, b1) & is_tail(b2);
    if three {
        return 3;
    }
    let four = starts_four(b0, b1) & (is_tail(b2) & is_tail(b3));
    if four {
        return 4;
    }
    0
}

// The byte at a position, or 0 past the end.
fn byte_or_zero(s: &[u8], at: usize) -> u8
    ensures { result ≡ get_or s.now at 0 }
{
    if at < s.len() { s[at] } else { 0 }
}

// The length of the character that starts at a position, or 0 where none does.
fn step_len(s: &[u8], at: usize) -> usize
    requires { at < length s.now }
    ensures { result ≡ step_len (drop at s.now) }
{
    let b0 = s[at];
    if b0 <= 0x7F {
        return 1;
    }
    let b1 = byte_or_zero(s, at + 1);
    let b2 = byte_or_zero(s, at + 2);
    let b3 = byte_or_zero(s, at + 3);
    sequence_len(b0, b1, b2, b3)
}

// Where the first sequence that RFC 3629 does not allow starts, or the length of a valid text: sequence by sequence.
fn scan(s: &[u8]) -> usize
    ensures { result ≡ first_bad s.now }
{
    let mut at = 0;
    // A `while`: a step is as long as the character.
    while at < s.len() {
        let step = step_len(s, at);
        if step == 0 {
            return at;
        }
        at += step;
    }
    at
}

// The same; most texts are ASCII, which takes less time to tell.
pub fn first_bad(s: &[u8]) -> usize
    ensures { result ≡ first_bad s.now }
{
    if is_ascii(s) {
        return s.len();
    }
    scan(s)
}

// Whether a text is UTF-8.
pub fn is_utf8(s: &[u8]) -> bool
    ensures { result ≡ is_utf8 s.now }
{
    if is_ascii(s) {
        return true;
    }
    scan(s) == s.len()
}

// Whether no character is cut where a slice starts: it is empty, or its first byte is no tail byte.
pub fn starts_whole(s: &[u8]) -> bool
    ensures { result ≡ starts_whole s.now }
{
    !is_tail(byte_or_zero(s, 0))
}
