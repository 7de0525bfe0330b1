// The ranges, the key and the parent of an item: specs/Valid.antt names each rule.
ghost use Rattle.std.specs.Prelude.{◌≡◌, ◌+◌, ◌<◌, ◌≤◌, length, leb};
ghost use Rattle.layout.specs.Limits.{most_items};
ghost use Rattle.build_memory.specs.Memory.{least_words, item_total, Valid};
ghost use Rattle.build_rules.specs.Valid.{value_within, ranges_valid, key_valid, begun_by, parent_valid};

use build_memory::fields::{
    HASH, KEY, KEY_SIZE, KIND, PARENT, TABLE, TABLES, USED, VALUE, VALUE_SIZE, item_word, key_of,
};
use build_memory::find::{find_hashed, hash_word};
use key_order::compare::same_bytes;
use layout::kind::{CONTAINER_KIND, TABLE_KIND, VALUE_KIND};
use layout::limits::LONGEST_KEY;
use text::utf8::is_utf8;

// Whether a stretch ends within the room used; the sum might not fit a word.
fn ends_within(start: usize, size: usize, used: usize) -> bool
    ensures { result ≡ leb (start + size) used }
{
    if used < start {
        return false;
    }
    size <= used - start
}

// Whether item i's value, if it is one, lies within the room used.
#[tactic(auto, unfolding(crate::specs::Valid::value_within))]
fn value_within(words: &[usize], i: usize) -> bool
    requires { (least_words ≤ length words.now) × (i < most_items) }
    ensures { result ≡ value_within words.now i }
{
    if item_word(words, i, KIND) != VALUE_KIND {
        return true;
    }
    ends_within(
        item_word(words, i, VALUE),
        item_word(words, i, VALUE_SIZE),
        words[USED],
    )
}

// Whether item i's table, key, kind and value are in their ranges.
#[tactic(auto, unfolding(crate::specs::Valid::ranges_valid, crate::specs::Valid::table_known, crate::specs::Valid::key_within, crate::specs::Valid::key_short, crate::specs::Valid::kind_valid))]
pub fn ranges_valid(words: &[usize], i: usize) -> bool
    requires { (least_words ≤ length words.now) × (i < most_items) }
    ensures { result ≡ ranges_valid words.now i }
{
    let known = item_word(words, i, TABLE) < words[TABLES];
    let size = item_word(words, i, KEY_SIZE);
    let placed = ends_within(item_word(words, i, KEY), size, words[USED]);
    let kind = item_word(words, i, KIND);
    let valid = (kind == VALUE_KIND) | ((kind == TABLE_KIND) | (kind == CONTAINER_KIND));
    known & (placed & ((size <= LONGEST_KEY) & (valid & value_within(words, i))))
}

// Whether item i's key is UTF-8, has the hash that is written, and is found as this item.
#[tactic(auto, unfolding(crate::specs::Valid::key_valid, crate::specs::Valid::key_utf8, crate::specs::Valid::hash_valid, crate::specs::Valid::key_found))]
pub fn key_valid(words: &[usize], arena: &[u8], i: usize) -> bool
    requires { Valid words.now (length arena.now) × (i < item_total words.now) }
    ensures { result ≡ key_valid words.now arena.now i }
{
    let key = key_of(words, arena, i);
    let text = is_utf8(key);
    let hash = hash_word(key);
    let hashed = item_word(words, i, HASH) == hash;
    let table = item_word(words, i, TABLE);
    let found = find_hashed(words, arena, table, key, hash) == i;
    text & (hashed & found)
}

// Whether a key starts with a shorter one.
#[tactic(auto, unfolding(crate::specs::Valid::begun_by))]
fn begun_by(short: &[u8], key: &[u8]) -> bool
    ensures { result ≡ begun_by short.now key.now }
{
    let n = short.len();
    if key.len() <= n {
        return false;
    }
    same_bytes(short, &key[..n])
}

// Whether item i has no parent, or one that was made before it, in its table, and whose key its key starts with.
#[tactic(auto, unfolding(crate::specs::Valid::parent_valid))]
pub fn parent_valid(words: &[usize], arena: &[u8], i: usize) -> bool
    requires { (least_words ≤ length words.now) × (i < most_items) }
    ensures { result ≡ parent_valid words.now arena.now i }
{
    let parent = item_word(words, i, PARENT);
    if parent == 0 {
        return true;
    }
    if i < parent {
        return false;
    }
    let above = parent - 1;
    if item_word(words, above, TABLE) != item_word(words, i, TABLE) {
        return false;
    }
    begun_by(key_of(words, arena, above), key_of(words, arena, i))
}
