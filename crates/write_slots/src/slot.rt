// The words of an item's slot.
ghost use Rattle.std.specs.Prelude.{◌≡◌, ℕ, ◌+◌, ◌*◌, ◌-◌, ◌<◌, ◌≤◌, length, get_or};
ghost use Rattle.words.specs.Store.{put_at};
ghost use Rattle.build_memory.specs.Memory.{item_parent, item_table, least_words};
ghost use Rattle.write_numbers.specs.Roster.{roster_size};
ghost use Rattle.write_parts.specs.Numbered.{numbered_size, slots_from, slot_size};
ghost use Rattle.layout.specs.Limits.{most_items};
ghost use Rattle.write_slots.specs.NumberedAs.{child_test, skipped, parent_word, slot_of, start_of, size_of, front_words, back_words, slot_words, Slotted, Firsts, firsts_size};

use build_memory::fields::{
    EMPTY, GUEST, KEY, KEY_SIZE, KIND, PARENT, TABLE, VALUE, VALUE_SIZE, item_word,
};
use key_hash::hash::Form;
use layout::kind::{CONTAINER_KIND, TABLE_KIND, VALUE_KIND};
use words::store::put;
use write_numbers::roster::{BUCKETS_FROM, INDICES_FROM};
use write_order::items::hash_of;
use write_parts::numbered::{HEAD_WORDS, SLOT_SIZE, SLOTS_FROM};

// Whether an item is laid as a child: it has a parent, which is a container.
fn is_child(words: &[usize], i: usize) -> bool
    requires { (least_words ≤ length words.now) × (i < most_items) × (item_parent words.now i ≤ i) }
    ensures { result ≡ child_test words.now i }
{
    let parent = item_word(words, i, PARENT);
    if parent == 0 {
        return false;
    }
    item_word(words, parent - 1, KIND) == CONTAINER_KIND
}

// How many bytes of an item's key are its parent's.
fn skip_of(words: &[usize], i: usize) -> usize
    requires { (least_words ≤ length words.now) × (i < most_items) × (item_parent words.now i ≤ i) }
    ensures { result ≡ skipped words.now i }
{
    if !is_child(words, i) {
        return 0;
    }
    item_word(words, item_word(words, i, PARENT) - 1, KEY_SIZE)
}

// The laid index of an item's parent; 0xFFFFFFFF for a root.
fn parent_word(words: &[usize], roster: &[usize], i: usize) -> usize
    requires { (least_words ≤ length words.now) × (i < most_items) × (item_parent words.now i ≤ i) × (length roster.now ≡ roster_size) }
    ensures { result ≡ parent_word words.now roster.now i }
{
    if !is_child(words, i) {
        return EMPTY;
    }
    let above = item_word(words, i, PARENT) - 1;
    roster[INDICES_FROM + above]
}

// The slot of an item.
fn slot_of(words: &[usize], roster: &[usize], i: usize) -> usize
    requires { Slotted words.now roster.now i }
    ensures { (result ≡ slot_of words.now roster.now i) × (result < most_items) }
{
    let table = item_word(words, i, TABLE);
    roster[HEAD_WORDS * table] + roster[INDICES_FROM + i]
}

// By kind: where the value starts, the guest, or the first child word.
fn start_of(words: &[usize], firsts: &[usize], i: usize) -> usize
    requires { (least_words ≤ length words.now) × (i < most_items) × (length firsts.now ≡ firsts_size) }
    ensures { result ≡ start_of words.now firsts.now i }
{
    let kind = item_word(words, i, KIND);
    if kind == VALUE_KIND {
        return item_word(words, i, VALUE);
    }
    if kind == TABLE_KIND {
        return item_word(words, i, GUEST);
    }
    firsts[i + 1]
}

// By kind: the value's length, nothing, or the count of child words.
fn size_of(words: &[usize], firsts: &[usize], i: usize) -> usize
    requires least_words_in_bounds { (least_words ≤ length words.now) × (i < most_items) × (length firsts.now ≡ firsts_size) }
    requires i_bound { get_or firsts.now (i + 1) 0 ≤ get_or firsts.now (i + 2) 0 }
    ensures { result ≡ size_of words.now firsts.now i }
{
    let kind = item_word(words, i, KIND);
    if kind == VALUE_KIND {
        return item_word(words, i, VALUE_SIZE);
    }
    if kind == TABLE_KIND {
        return 0;
    }
    let from = firsts[i + 1];
    firsts[i + 2] - from
}

// Puts the first four words of an item's slot.
fn put_front(
    words: &[usize],
    roster: &[usize],
    i: usize,
    numbered: &mut [usize],
    at: usize,
    arena: &[u8],
    form: Form,
)
    requires slotted { Slotted words.now roster.now i }
    requires at_in_bounds { at + 4 ≤ length numbered.old }
    ensures { numbered.new ≡ put_at numbered.old at (front_words words.now roster.now form arena.now i) }
{
    let hash = hash_of(words, arena, i, form);
    let parent = parent_word(words, roster, i);
    let skip = skip_of(words, i);
    let start = item_word(words, i, KEY) + skip;
    let size = item_word(words, i, KEY_SIZE) - skip;
    let row = [hash, parent, start, size];
    put(numbered, at, &row);
}

// Puts the last four words of an item's slot.
fn put_back(
    words: &[usize],
    roster: &[usize],
    firsts: &[usize],
    i: usize,
    numbered: &mut [usize],
    at: usize,
)
    requires slotted { Slotted words.now roster.now i }
    requires firsts { Firsts firsts.now }
    requires at_in_bounds { at + 4 ≤ length numbered.old }
    ensures { numbered.new ≡ put_at numbered.old at (back_words words.now roster.now firsts.now i) }
{
    let kind = item_word(words, i, KIND);
    let start = start_of(words, firsts, i);
    let size = size_of(words, firsts, i);
    let slot = slot_of(words, roster, i);
    let bucket = roster[BUCKETS_FROM + slot];
    let row = [kind, start, size, bucket];
    put(numbered, at, &row);
}

// Puts the words of an item's slot.
pub fn put_slot(
    words: &[usize],
    roster: &[usize],
    firsts: &[usize],
    i: usize,
    numbered: &mut [usize],
    arena: &[u8],
    form: Form,
)
    requires slotted { Slotted words.now roster.now i }
    requires firsts { Firsts firsts.now }
    requires numbered_len { length numbered.old ≡ numbered_size }
    ensures { numbered.new ≡ put_at numbered.old (slots_from + slot_size * slot_of words.now roster.now i) (slot_words words.now roster.now firsts.now form arena.now i) }
{
    let at = SLOTS_FROM + SLOT_SIZE * slot_of(words, roster, i);
    put_front(words, roster, i, numbered, at, arena, form);
    put_back(words, roster, firsts, i, numbered, at + 4);
}
