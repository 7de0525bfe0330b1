// What the walks over files share: the room for a file, the manner in which it is read, and its root table.
use key_hash::hash::Form;
use read_find::manner::{Lookup, Manner};
use words::field::word_at;

// At most so many bytes of a file are read; the files are smaller.
pub const MOST: usize = 4096;

// The base form, and the Rust's lookup.
pub const BASE: Manner = Manner {
    form: Form::Plain,
    lookup: Lookup::Rust,
};

// The bytes of a file's header.
pub const HEADER: u32 = 24;

// A file, and where its root table lies.
#[derive(Clone, Copy)]
pub struct Root<'a> {
    pub file: &'a [u8],
    pub start: u32,
    pub end: u32,
}

impl<'a> Root<'a> {
    // The root table that a file's header names; none where the file is shorter than a header.
    pub fn of(file: &'a [u8]) -> Option<Root<'a>> {
        let header = file.get(..HEADER as usize)?;
        Some(Root {
            file,
            start: word_at(header, 16),
            end: word_at(header, 20),
        })
    }
}
