// The hash of a key: start 5381, for each byte times 33 plus what the byte counts, modulo 2^32.
ghost use Rattle.std.specs.Prelude.{◌≡◌, ◌*◌, ◌%◌, ◌^◌, ◌<◌, [], ◌∷◌, length};
ghost use Rattle.key_hash.specs.Hash.{hash_step, hash_from, hash_by, plain, rule_of, hash_of};

// What a byte counts in the hash: 0 to 255, as in the Rust, or -128 to 127, as in GLib.
#[derive(Clone, Copy)]
pub enum Form {
    Plain,
    Signed,
}

// The hash of no bytes.
pub const HASH_START: u32 = 5381;

// The low 32 bits of the product: the hash wraps on purpose, and document 01 names a helper of the program's own for it.
pub fn wrapping_mul(a: u32, b: u32) -> u32
    ensures { result ≡ (a * b) % 2 ^ 32 }
{
    a.wrapping_mul(b)
}

// What a byte counts under a form, as a number of 32 bits: the signed one turns the two halves of 256 round and takes 128 off, which is one instruction.
pub fn byte_counts(b: u8, form: Form) -> u32
    ensures { (result ≡ rule_of form b) × (result < 2 ^ 32) }
{
    let wide = b as u32;
    match form {
        Form::Plain => wide,
        Form::Signed => ((wide + 128) % 256).wrapping_add(0xFFFF_FF80),
    }
}

// The hash after four bytes more, by what they count: times 33 four times, at once.
fn hash_four(value: u32, a: u32, b: u32, c: u32, d: u32) -> u32
    ensures { result ≡ hash_from plain value (a ∷ b ∷ c ∷ d ∷ []) }
{
    let ab = wrapping_mul(a, 35_937).wrapping_add(wrapping_mul(b, 1_089));
    let cd = wrapping_mul(c, 33).wrapping_add(d);
    wrapping_mul(value, 1_185_921).wrapping_add(ab.wrapping_add(cd))
}

// The hash after one byte more, under a form.
fn hash_byte(value: u32, b: u8, form: Form) -> u32
    ensures { result ≡ hash_step (rule_of form) value b }
{
    wrapping_mul(value, 33).wrapping_add(byte_counts(b, form))
}

// The hash after at most three bytes more, which is what strides of four leave.
fn hash_tail(value: u32, bytes: &[u8], form: Form) -> u32
    requires { length bytes.now < 4 }
    ensures { result ≡ hash_from (rule_of form) value bytes.now }
{
    if bytes.len() == 0 {
        return value;
    }
    let one = hash_byte(value, bytes[0], form);
    if bytes.len() == 1 {
        return one;
    }
    let two = hash_byte(one, bytes[1], form);
    if bytes.len() == 2 {
        return two;
    }
    hash_byte(two, bytes[2], form)
}

// The hash of bytes under a form, going on from the hash of what stands before them: four bytes at a time and then what is left.
pub fn hash_on(start: u32, bytes: &[u8], form: Form) -> u32
    ensures { result ≡ hash_from (rule_of form) start bytes.now }
{
    let (strides, tail) = bytes.as_chunks::<4>();
    let mut value = start;
    for [a, b, c, d] in strides {
        let a = byte_counts(*a, form);
        let b = byte_counts(*b, form);
        let c = byte_counts(*c, form);
        let d = byte_counts(*d, form);
        value = hash_four(value, a, b, c, d);
    }
    hash_tail(value, tail, form)
}

// gvdb-rs: djb_hash.
// The hash of a key.
pub fn djb_hash(key: &[u8]) -> u32
    ensures { result ≡ hash_of key.now }
{
    hash_on(HASH_START, key, Form::Plain)
}

// The hash of a key under a form, which is asked for once: handed on to `hash_on`, it would be tested again for each of the last bytes. It has one caller, so the
// compiler takes it into a lookup.
pub fn hash_key(key: &[u8], form: Form) -> u32
    ensures { result ≡ hash_by (rule_of form) key.now }
{
    match form {
        Form::Plain => djb_hash(key),
        Form::Signed => hash_on(HASH_START, key, Form::Signed),
    }
}
