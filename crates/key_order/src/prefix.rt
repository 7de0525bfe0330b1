// The prefixes of a key that end at a separator.
ghost use Rattle.std.specs.Prelude.{◌≡◌, ◌≤◌, length};
ghost use Rattle.key_order.specs.Prefix.{next_end};

// Where the next prefix ends: behind the next separator from `from` on, or at the key's end. 256 stands for no separator.
pub fn next_end(key: &[u8], from: usize, sep: usize) -> usize
    requires { from ≤ length key.now }
    ensures value { result ≡ next_end sep key.now from }
    ensures within { (from ≤ result) × (result ≤ length key.now) }
{
    for i in from..key.len() {
        if key[i] as usize == sep {
            return i + 1;
        }
    }
    key.len()
}
