// The hash and the length of an item's joined key, on the way from the item to its root, with no buffer for the key.
ghost use Rattle.std.specs.Prelude.{◌≡◌, ◌<◌, [], ◌∷◌};
ghost use Rattle.key_hash.specs.Hash.{plain, rule_of};
ghost use Rattle.layout.specs.Table.{InFile};
ghost use Rattle.read_chain.specs.Chain.{key_of};
ghost use Rattle.check_hash.specs.Tally.{before, prepend, finish};
ghost use Rattle.check_hash.specs.Key.{joined_key};

use key_hash::hash::{Form, byte_counts, wrapping_mul};
use layout::item::item_at;
use layout::table::Table;
use read_chain::chain::climb;

// What the end of a key does to a hash: of a key whose front has the hash h, the hash is h * weight + sum, modulo 2^32.
#[derive(Clone, Copy)]
pub struct Tally {
    pub weight: u32,
    pub sum: u32,
}

// The hash and the length of a joined key that reads.
#[derive(Clone, Copy)]
pub struct JoinedKey {
    pub hash: u32,
    pub size: usize,
}

// The tally with one byte more in front.
#[tactic(auto, using(crate::proofs::TallyLaws::before_is))]
fn prepend_byte(byte: u8, tally: Tally, form: Form) -> Tally
    ensures { result ≡ before (rule_of form) byte tally }
{
    let weight = tally.weight;
    let counted = wrapping_mul(byte_counts(byte, form), weight);
    Tally {
        weight: wrapping_mul(weight, 33),
        sum: counted.wrapping_add(tally.sum),
    }
}

// The tally with all of a slice in front, byte by byte.
fn prepend_each(bytes: &[u8], tally: Tally, form: Form) -> Tally
    ensures { result ≡ prepend (rule_of form) bytes.now tally }
{
    let mut state = tally;
    for &byte in bytes.iter().rev() {
        state = prepend_byte(byte, state, form);
    }
    state
}

// The tally with four bytes more in front, by what they count. `hash_four` of `key_hash` puts them behind, so its factor goes to what was there.
#[tactic(auto, using(crate::proofs::TallyLaws::four_is))]
fn prepend_four(a: u32, b: u32, c: u32, d: u32, tally: Tally) -> Tally
    ensures { result ≡ prepend plain (a ∷ b ∷ c ∷ d ∷ []) tally }
{
    let weight = tally.weight;
    let ab = wrapping_mul(a, 35_937).wrapping_add(wrapping_mul(b, 1_089));
    let cd = wrapping_mul(c, 33).wrapping_add(d);
    let counted = wrapping_mul(ab.wrapping_add(cd), weight);
    Tally {
        weight: wrapping_mul(weight, 1_185_921),
        sum: counted.wrapping_add(tally.sum),
    }
}

// The same as prepend_each, four bytes at a time from the back, and then what is left in front.
fn prepend_strides(bytes: &[u8], tally: Tally, form: Form) -> Tally
    ensures { result ≡ prepend (rule_of form) bytes.now tally }
{
    let (front, strides) = bytes.as_rchunks::<4>();
    let mut state = tally;
    for &[a, b, c, d] in strides.iter().rev() {
        let a = byte_counts(a, form);
        let b = byte_counts(b, form);
        let c = byte_counts(c, form);
        let d = byte_counts(d, form);
        state = prepend_four(a, b, c, d, state);
    }
    prepend_each(front, state, form)
}

// The same: the form is chosen once for all bytes, and not at each of them.
fn prepend_all(bytes: &[u8], tally: Tally, form: Form) -> Tally
    ensures { result ≡ prepend (rule_of form) bytes.now tally }
{
    match form {
        Form::Plain => prepend_strides(bytes, tally, Form::Plain),
        Form::Signed => prepend_strides(bytes, tally, Form::Signed),
    }
}

// The hash of a whole key: the front before it is empty, and has the hash 5381.
#[tactic(auto, using(crate::proofs::TallyLaws::finish_is))]
fn finished(tally: Tally) -> u32
    ensures { result ≡ finish tally }
{
    wrapping_mul(tally.weight, 5381).wrapping_add(tally.sum)
}

// The hash and the length of the joined key of the item at an index.
pub fn joined_key(file: &[u8], table: Table, index: usize, form: Form) -> Option<JoinedKey>
    requires { InFile file.now table × (index < table.count) }
    ensures { result ≡ joined_key (rule_of form) (key_of file.now table table.count index) }
{
    let mut at = index;
    let mut total: usize = 0;
    let mut tally = Tally { weight: 1, sum: 0 };
    for _ in 0..table.count {
        let item = item_at(file, table, at);
        let step = climb(file, table.count, item).ok()?;
        let start = item.key as usize;
        let part = item.size as usize;
        tally = prepend_all(&file[start..start + part], tally, form);
        total += part;
        let Some(parent) = step else {
            return Some(JoinedKey {
                hash: finished(tally),
                size: total,
            });
        };
        at = parent;
    }
    None
}
