// Calls on a builder: whether the library answers, and lays, as the record says.
use crate::list::Record;
use answers_build::writing::GvdbImage;
use gvdb::building::{gvdb_fresh, gvdb_insert, gvdb_insert_table, gvdb_item_count, gvdb_new_table};
use gvdb::writing::gvdb_write;

// The bytes of an image's header, which gvdb-rs fills and the library leaves empty.
const HEADER: usize = 24;

pub fn fresh(r: Record<'_>, words: &mut [usize], arena: &[u8]) -> bool {
    gvdb_fresh(words, arena) == r.number
}

// The separator is the first string; the table's number.
pub fn new_table(r: Record<'_>, words: &mut [usize], arena: &[u8]) -> bool {
    let said = gvdb_new_table(words, arena, r.first);
    (said.number == r.number) & (said.table == r.one)
}

// Table, key and value.
pub fn insert(r: Record<'_>, words: &mut [usize], arena: &mut [u8]) -> bool {
    let said = gvdb_insert(words, arena, r.one, r.first, r.second);
    said.number == r.number
}

// Table, key and guest.
pub fn insert_table(r: Record<'_>, words: &mut [usize], arena: &mut [u8]) -> bool {
    let said = gvdb_insert_table(words, arena, r.one, r.first, r.two);
    said.number == r.number
}

// Table and its count.
pub fn item_count(r: Record<'_>, words: &[usize], arena: &[u8]) -> bool {
    let said = gvdb_item_count(words, arena, r.one);
    (said.number == r.number) & (said.count == r.two)
}

// Whether an answer and the bytes laid are those of the second string.
fn laid(r: Record<'_>, said: GvdbImage, image: &[u8]) -> bool {
    let theirs = r.second;
    let length = said.length as usize;
    (image.get(HEADER..length) == theirs.get(HEADER..))
        & (length == theirs.len())
        & (said.number == r.number)
        & (said.start == r.start)
        & (said.end == r.end)
}

// The table, its root pointer and its image.
pub fn write(r: Record<'_>, words: &mut [usize], arena: &[u8]) -> bool {
    // Fixed memory: there is no heap.
    let mut image = [0u8; 65536];
    let said = gvdb_write(words, arena, r.one, &mut image, 0, 0);
    laid(r, said, &image)
}
