// The search for a key, along the chain of its bucket.
ghost use Rattle.std.specs.Prelude.{◌≡◌, ◌<◌, ◌≤◌, length};
ghost use Rattle.key_hash.specs.Hash.{hash_of};
ghost use Rattle.layout.specs.Limits.{most_items};
ghost use Rattle.build_memory.specs.Memory.{least_words, item_total};
ghost use Rattle.build_memory.specs.Find.{is_item, find_key};

use crate::fields::{BUCKETS, HASH, HEADS_FROM, ITEMS, KEY_SIZE, OLDER, TABLE, item_word, key_of};
use key_hash::hash::djb_hash;
use key_order::compare::same_bytes;

// The hash of a key, as a word.
pub fn hash_word(key: &[u8]) -> usize
    ensures { result ≡ hash_of key.now }
{
    djb_hash(key) as usize
}

// Whether item i is of the table and has the key, whose hash is given.
#[tactic(auto, unfolding(crate::specs::Find::is_item))]
fn is_item(words: &[usize], arena: &[u8], table: usize, hash: usize, key: &[u8], i: usize) -> bool
    requires { (least_words ≤ length words.now) × (i < most_items) }
    ensures { result ≡ is_item words.now arena.now table hash key.now i }
{
    if item_word(words, i, TABLE) != table {
        return false;
    }
    if item_word(words, i, HASH) != hash {
        return false;
    }
    if item_word(words, i, KEY_SIZE) != key.len() {
        return false;
    }
    same_bytes(key_of(words, arena, i), key)
}

// gvdb-rs: SimpleHashTable::get, get_from_bucket; HashTableBuilder has a map for it.
// The index of the table's item with the key, whose hash is given, or the count of all items where there is none.
// No `Option`: the definition `find_key` answers the count, and theorems go by it.
pub fn find_hashed(words: &[usize], arena: &[u8], table: usize, key: &[u8], hash: usize) -> usize
    requires least_words_in_bounds { (least_words ≤ length words.now) × (item_total words.now ≤ most_items) }
    requires hash_value { hash ≡ hash_of key.now }
    ensures value { result ≡ find_key words.now arena.now table key.now }
    ensures within { result ≤ item_total words.now }
{
    let n = words[ITEMS];
    let bucket = hash % BUCKETS;
    let mut limit = n;
    let mut i = words[HEADS_FROM + bucket];
    // A `while`: i goes from item to older item, and the chain's end is known only when it is met.
    while i < limit {
        if is_item(words, arena, table, hash, key, i) {
            return i;
        }
        limit = i;
        i = item_word(words, i, OLDER);
    }
    n
}
