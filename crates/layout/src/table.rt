// A table and its opening.
ghost use Rattle.std.specs.Prelude.{◌≡◌, ◌≤◌, length};
ghost use Rattle.layout.specs.Table.{table_in, open_table};

use crate::limits::LONGEST_FILE;
use crate::pointer::open_pointer;
use crate::refusal::Refusal;
use crate::sizes::{BUCKET_SIZE, HEAD_SIZE, RECORD_SIZE};
use words::align::Alignment;
use words::bits::bloom_count;
use words::field::word_at;

// gvdb-rs: HashTable, HashHeader.
// An open table: where it starts, its counts, and where its items start. In the file, in bytes, numbers little endian:
//
//     start -> +-------------+----------------------------------------------+
//              | 4           | low 27 bits: `blooms`; top five bits: shift  |  n_bloom_words
//              +-------------+----------------------------------------------+
//              | 4           | `buckets`                                    |  n_buckets
//              +-------------+----------------------------------------------+
//              | 4 * blooms  | bloom words                                  |  bloom_words_offset, bloom_words_len
//              +-------------+----------------------------------------------+
//              | 4 * buckets | bucket words: each the index of the bucket's |  buckets_offset, buckets_len
//              |             | first item                                   |
//     items -> +-------------+----------------------------------------------+
//              | 24 * count  | items, up to the end of the pointer          |  items_offset
//              +-------------+----------------------------------------------+
//
// To the right: the names that HashHeader has for it.
#[derive(Clone, Copy)]
pub struct Table {
    pub start: usize,
    pub blooms: usize,
    pub buckets: usize,
    pub items: usize,
    pub count: usize,
}

// gvdb-rs: HashTable::for_bytes, with try_from_bytes, read_bloom_words, read_buckets and read_items of HashHeader.
// The table that fills the bytes from start to end: 4, 5, 6, 7, or its parts.
#[tactic(auto, unfolding(crate::specs::Table::table_in, crate::specs::Table::table_of, words::specs::Choice::pick))]
fn table_in(file: &[u8], start: usize, end: usize) -> Result<Table, Refusal>
    requires { (start ≤ end) × (end ≤ length file.now) }
    ensures { result ≡ table_in file.now start end }
{
    let size = end - start;
    if size < HEAD_SIZE {
        return Err(Refusal::TableTooShort);
    }
    let blooms = bloom_count(word_at(file, start)) as usize;
    let buckets = word_at(file, start + 4) as usize;
    let buckets_from = HEAD_SIZE + 4 * blooms;
    if size < buckets_from {
        return Err(Refusal::BloomTooLong);
    }
    let items_from = buckets_from + BUCKET_SIZE * buckets;
    if size < items_from {
        return Err(Refusal::BucketsTooLong);
    }
    let item_bytes = size - items_from;
    if item_bytes % RECORD_SIZE != 0 {
        return Err(Refusal::ItemsUneven);
    }
    Ok(Table {
        start,
        blooms,
        buckets,
        items: start + items_from,
        count: item_bytes / RECORD_SIZE,
    })
}

// gvdb-rs: File::read_hash_table, and File::hash_table for the root pointer.
// The table at the pointer from start to end: 1, the pointer's errors, 4, 5, 6, 7.
#[tactic(auto, using(crate::proofs::OpenLaws::pointer_inside), unfolding(crate::specs::Table::open_table, words::specs::Choice::pick))]
pub fn open_table(file: &[u8], start: u32, end: u32) -> Result<Table, Refusal>
    ensures { result ≡ open_table file.now start end }
{
    if LONGEST_FILE < file.len() {
        return Err(Refusal::FileTooLong);
    }
    let from = start as usize;
    let to = end as usize;
    open_pointer(file.len(), from, to, Alignment::Table)?;
    table_in(file, from, to)
}
