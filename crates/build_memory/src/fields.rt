// Where the words of a builder's memory stand (specs/Memory.antt says what each holds), and how they and the arena are read.
ghost use Rattle.std.specs.Prelude.{◌≡◌, ◌+◌, ◌<◌, ◌≤◌, length};
ghost use Rattle.words.specs.Store.{part};
ghost use Rattle.layout.specs.Limits.{most_items, most_tables};
ghost use Rattle.build_memory.specs.Memory.{least_words, table_size, item_size, word, table_at, item_at, key_of};

use layout::item::NO_ITEM;
use layout::limits::{MOST_ITEMS, MOST_TABLES};

// The header's words.
pub const LENGTH: usize = 0;

pub const ROOM: usize = 1;

pub const TABLES: usize = 2;

pub const ITEMS: usize = 3;

pub const USED: usize = 4;

// The tables, and the words of one.
pub const TABLES_FROM: usize = 8;

pub const TABLE_SIZE: usize = 4;

pub const SEPARATOR: usize = 0;

pub const PLACED: usize = 1;

pub const HEIGHT: usize = 2;

pub const NO_SEPARATOR: usize = 256;

pub const LAST_SEPARATOR: usize = 127;

// The heads of the buckets, and the empty mark, which says that there is no item.
pub const HEADS_FROM: usize = TABLES_FROM + TABLE_SIZE * MOST_TABLES;

pub const BUCKETS: usize = 1024;

pub const EMPTY: usize = NO_ITEM as usize;

// The items, and the words of one.
pub const ITEMS_FROM: usize = HEADS_FROM + BUCKETS;

pub const ITEM_SIZE: usize = 12;

pub const TABLE: usize = 0;

pub const HASH: usize = 1;

pub const OLDER: usize = 2;

pub const KEY: usize = 3;

pub const KEY_SIZE: usize = 4;

pub const PARENT: usize = 5;

pub const KIND: usize = 6;

pub const VALUE: usize = 7;

pub const VALUE_SIZE: usize = 8;

pub const GUEST: usize = 9;

// The links, which hold EMPTY between calls.
pub const LINKS_FROM: usize = ITEMS_FROM + ITEM_SIZE * MOST_ITEMS;

pub const LINKS: usize = MOST_ITEMS;

// Words that are fewer are too short.
pub const LEAST_WORDS: usize = LINKS_FROM + LINKS;

// A word of table t, and below of item i: with the two constants as parameters a call would be longer than the index.
pub fn table_word(words: &[usize], t: usize, field: usize) -> usize
    requires { (least_words ≤ length words.now) × (t < most_tables) × (field < table_size) }
    ensures { result ≡ word words.now (table_at t + field) }
{
    words[TABLES_FROM + TABLE_SIZE * t + field]
}

// A word of item i.
pub fn item_word(words: &[usize], i: usize, field: usize) -> usize
    requires { (least_words ≤ length words.now) × (i < most_items) × (field < item_size) }
    ensures { result ≡ word words.now (item_at i + field) }
{
    words[ITEMS_FROM + ITEM_SIZE * i + field]
}

// The bytes from `at` on, as many of them as there are: no word can take a read out of the arena.
pub fn part_of(arena: &[u8], at: usize, size: usize) -> &[u8]
    ensures { result.now ≡ part arena.now at size }
{
    if arena.len() <= at {
        return &arena[..0];
    }
    if arena.len() - at <= size {
        return &arena[at..];
    }
    &arena[at..at + size]
}

// The key of item i, as a part of the arena.
#[tactic(auto, unfolding(crate::specs::Memory::key_of))]
pub fn key_of<'a>(words: &[usize], arena: &'a [u8], i: usize) -> &'a [u8]
    requires { (least_words ≤ length words.now) × (i < most_items) }
    ensures { result.now ≡ key_of words.now arena.now i }
{
    let start = item_word(words, i, KEY);
    let size = item_word(words, i, KEY_SIZE);
    part_of(arena, start, size)
}
