// Questions that change nothing: whether the library answers as the record says.
use crate::list::Record;
use gvdb::reading::{gvdb_get, gvdb_get_table, gvdb_next_key, gvdb_next_value, gvdb_open};
use key_hash::hash::djb_hash;
use text::utf8::first_bad;

// Items, buckets and bloom words.
pub fn open(file: &[u8], r: Record<'_>) -> bool {
    let said = gvdb_open(file, r.start, r.end);
    (said.number == r.number)
        & (said.items == r.one)
        & (said.buckets == r.two)
        & (said.blooms == r.three)
}

// The key is the first string; the value's pointer.
pub fn get(file: &[u8], r: Record<'_>) -> bool {
    let said = gvdb_get(file, r.start, r.end, r.first, 0);
    (said.number == r.number) & (said.start == r.one) & (said.end == r.two)
}

// The same of a nested table.
pub fn get_table(file: &[u8], r: Record<'_>) -> bool {
    let said = gvdb_get_table(file, r.start, r.end, r.first, 0);
    (said.number == r.number) & (said.start == r.one) & (said.end == r.two)
}

// Position and next position; the key is the second string.
pub fn next_key(file: &[u8], r: Record<'_>) -> bool {
    // Fixed memory: there is no heap.
    let mut out = [0u8; 4096];
    let said = gvdb_next_key(file, r.start, r.end, r.one as usize, &mut out);
    let same = out.get(..said.length) == Some(r.second);
    same & (said.number == r.number) & (said.next == r.two as usize)
}

// Position, the value's pointer, item and next position.
pub fn next_value(file: &[u8], r: Record<'_>) -> bool {
    let said = gvdb_next_value(file, r.start, r.end, r.one as usize);
    let same = (said.index == r.four as usize) & (said.next == r.five as usize);
    same & (said.number == r.number) & (said.start == r.two) & (said.end == r.three)
}

pub fn hash(r: Record<'_>) -> bool {
    djb_hash(r.first) == r.one
}

// Where the first sequence that is not UTF-8 starts.
pub fn utf8(r: Record<'_>) -> bool {
    first_bad(r.first) == r.one as usize
}
