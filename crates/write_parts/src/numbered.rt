// Where the words of a numbered table stand (specs/Numbered.antt says what each holds), and how they are read.
// Flat words in fixed memory: there is no heap, and the definitions go by them.
ghost use Rattle.std.specs.Prelude.{◌≡◌, ◌+◌, ◌*◌, ◌<◌, length};
ghost use Rattle.write_parts.specs.Numbered.{head_words, slots_from, slot_size, first_slot, slot_count, slot_word};

use layout::limits::{MOST_ITEMS, MOST_TABLES};

// The tables, and the words of one: the first slot, and the count of items.
pub const HEAD_WORDS: usize = 2;

// The slots, and the words of one.
pub const SLOTS_FROM: usize = HEAD_WORDS * MOST_TABLES;

pub const SLOT_SIZE: usize = 8;

pub const HASH: usize = 0;

pub const PARENT: usize = 1;

pub const FRAGMENT: usize = 2;

pub const FRAGMENT_SIZE: usize = 3;

pub const KIND: usize = 4;

pub const VALUE: usize = 5;

pub const VALUE_SIZE: usize = 6;

pub const BUCKET: usize = 7;

// The child words.
pub const CHILDREN_FROM: usize = SLOTS_FROM + SLOT_SIZE * MOST_ITEMS;

pub const NUMBERED_SIZE: usize = CHILDREN_FROM + MOST_ITEMS;

// The first slot of a table.
pub fn first_slot(numbered: &[usize], table: usize) -> usize
    requires { head_words * table < length numbered.now }
    ensures { result ≡ first_slot numbered.now table }
{
    numbered[HEAD_WORDS * table]
}

// gvdb-rs: SimpleHashTable::n_items, n_buckets.
// The count of a table's items.
pub fn slot_count(numbered: &[usize], table: usize) -> usize
    requires { head_words * table + 1 < length numbered.now }
    ensures { result ≡ slot_count numbered.now table }
{
    numbered[HEAD_WORDS * table + 1]
}

// A word of a slot's eight.
pub fn slot_word(numbered: &[usize], slot: usize, which: usize) -> usize
    requires { slots_from + slot_size * slot + which < length numbered.now }
    ensures { result ≡ slot_word numbered.now slot which }
{
    numbered[SLOTS_FROM + SLOT_SIZE * slot + which]
}
