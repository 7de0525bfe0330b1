// How a table is read: what a byte counts in the hash, and which bits of its filter have to be set.
use key_hash::hash::Form;

// The filter's second bit: the first one again, as in the Rust, or the one that the table's own shift names.
#[derive(Clone, Copy)]
pub enum Lookup {
    Rust,
    Strict,
}

// The manner of a reading, by value.
#[derive(Clone, Copy)]
pub struct Manner {
    pub form: Form,
    pub lookup: Lookup,
}
