// Equality of byte slices. Eight bytes, four or two are compared as one number. The last stretch ends where the slices end, so it may
// start in bytes that were compared before: no byte is left over. The library's `==` and `ends_with` of slices answer the same, but element by
// element, in about twice the time at 12 to 32 bytes, and lookups stand on it. A function for each width: they differ in the number that is read.
ghost use Rattle.std.specs.Prelude.{◌≡◌, ◌≤◌, ◌<◌, length};
ghost use Rattle.key_order.specs.Compare.{same_bytes, ends_at};

use words::field::{half_at, long_at, word_at};

// Whether two slices of one length, eight bytes or more, hold the same bytes.
fn same_long(a: &[u8], b: &[u8]) -> bool
    requires { (length a.now ≡ length b.now) × (8 ≤ length a.now) }
    ensures { result ≡ same_bytes a.now b.now }
{
    for i in 0..(a.len() - 1) / 8 {
        if long_at(a, 8 * i) != long_at(b, 8 * i) {
            return false;
        }
    }
    let last = a.len() - 8;
    long_at(a, last) == long_at(b, last)
}

// The same, of four to eight.
fn same_words(a: &[u8], b: &[u8]) -> bool
    requires { (length a.now ≡ length b.now) × (4 ≤ length a.now) × (length a.now ≤ 8) }
    ensures { result ≡ same_bytes a.now b.now }
{
    let last = a.len() - 4;
    (word_at(a, 0) == word_at(b, 0)) & (word_at(a, last) == word_at(b, last))
}

// The same, of two to four.
fn same_halves(a: &[u8], b: &[u8]) -> bool
    requires { (length a.now ≡ length b.now) × (2 ≤ length a.now) × (length a.now ≤ 4) }
    ensures { result ≡ same_bytes a.now b.now }
{
    let last = a.len() - 2;
    (half_at(a, 0) == half_at(b, 0)) & (half_at(a, last) == half_at(b, last))
}

// The same, of less than four.
fn same_few(a: &[u8], b: &[u8]) -> bool
    requires { (length a.now ≡ length b.now) × (length a.now < 4) }
    ensures { result ≡ same_bytes a.now b.now }
{
    if 2 <= a.len() {
        return same_halves(a, b);
    }
    if a.len() == 0 {
        return true;
    }
    a[0] == b[0]
}

// Whether two slices hold the same bytes.
pub fn same_bytes(a: &[u8], b: &[u8]) -> bool
    ensures { result ≡ same_bytes a.now b.now }
{
    if a.len() != b.len() {
        return false;
    }
    if 8 <= a.len() {
        return same_long(a, b);
    }
    if 4 <= a.len() {
        return same_words(a, b);
    }
    same_few(a, b)
}

// Whether the first n bytes of the key end with the fragment.
pub fn ends_with(key: &[u8], n: usize, frag: &[u8]) -> bool
    requires { n ≤ length key.now }
    ensures { result ≡ ends_at key.now n frag.now }
{
    let size = frag.len();
    if n < size {
        return false;
    }
    let from = n - size;
    same_bytes(&key[from..n], frag)
}
