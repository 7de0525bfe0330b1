// A set of item indices: a bit each, 64 to a word.
ghost use Rattle.std.specs.Prelude.{◌≡◌, ◌*◌, ◌<◌, length};
ghost use Rattle.check_rules.specs.Bits.{has_bit, with_bit};

// Whether an index is in the set.
#[tactic(auto, unfolding(crate::specs::Bits::has_bit))]
pub fn has_bit(bits: &[usize], at: usize) -> bool
    requires { at < 64 * length bits.now }
    ensures { result ≡ has_bit bits.now at }
{
    (bits[at / 64] >> (at % 64)) & 1 == 1
}

// Puts an index into the set.
#[tactic(auto, unfolding(crate::specs::Bits::with_bit))]
pub fn set_bit(bits: &mut [usize], at: usize)
    requires { at < 64 * length bits.old }
    ensures { bits.new ≡ with_bit bits.old at }
{
    let word = at / 64;
    bits[word] = bits[word] | (1 << (at % 64));
}
