// The order of keys, byte by byte; a key comes before the longer keys that start with it. The library's `<` of slices is the same order, but
// compares no eights, and takes several times as long at 16 equal bytes.
ghost use Rattle.std.specs.Prelude.{◌≡◌, ◌≤◌, length, take};
ghost use Rattle.key_order.specs.Order.{precedes};

use words::field::long_at;

// How many bytes at their front two keys have in common, at least: counted by eights.
fn same_front(a: &[u8], b: &[u8]) -> usize
    ensures { (result ≤ length a.now) × (result ≤ length b.now) × (take result a.now ≡ take result b.now) }
{
    let strides = a.len().min(b.len()) / 8;
    for i in 0..strides {
        let at = 8 * i;
        if long_at(a, at) != long_at(b, at) {
            return at;
        }
    }
    8 * strides
}

pub fn less(a: &[u8], b: &[u8]) -> bool
    ensures { result ≡ precedes a.now b.now }
{
    let front = same_front(a, b);
    for i in front..a.len().min(b.len()) {
        if a[i] != b[i] {
            return a[i] < b[i];
        }
    }
    a.len() < b.len()
}
