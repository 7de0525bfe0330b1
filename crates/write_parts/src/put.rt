// Bytes laid into an image: a table's head and bucket words, a record, a fragment with its zeros, a value.
ghost use Rattle.std.specs.Prelude.{◌≡◌, ◌++◌, ℕ, ◌+◌, ◌*◌, ◌≤◌, ◌<◌, ◌^◌, length, get_or};
ghost use Rattle.words.specs.Store.{part, put_at};
ghost use Rattle.words.specs.Field.{word_at};
ghost use Rattle.layout.specs.Sizes.{head_size, filter_size, bucket_size, record_size};
ghost use Rattle.image.specs.Laid.{Laid};
ghost use Rattle.image.specs.Plan.{word, words_of, with_hash};
ghost use Rattle.layout.specs.Kind.{table_kind};
ghost use Rattle.layout.specs.Limits.{most_items, most_filter};
ghost use Rattle.write_parts.specs.Numbered.{slot_hash, slot_fragment, slot_fragment_size, slot_kind, slot_bucket, numbered_size, NumberedFits};
ghost use Rattle.write_parts.specs.Slot.{head_bytes, slot_filter, slot_record, slot_key, plain_value, SlotIn, CoverFits, RecordFits};

use crate::numbered::{
    BUCKET, CHILDREN_FROM, FRAGMENT, FRAGMENT_SIZE, HASH, KIND, PARENT, SLOT_SIZE, SLOTS_FROM,
    VALUE, VALUE_SIZE, slot_word,
};
use crate::slot::cover;
use layout::kind::VALUE_KIND;
use layout::sizes::{FILTER_SIZE, HEAD_SIZE};
use words::bits::put_bit;
use words::field::{put_word, word_at};
use words::store::{fill, put};

// The first word of a table without filter words: a shift of 5.
const FIRST_WORD: u32 = 0x2800_0000;

// gvdb-rs: HashHeader::new.
// Lays a table's first word and its count of buckets.
fn lay_head(image: &mut [u8], count: usize, at: usize, filter: usize)
    requires { (at + head_size ≤ length image.old) × (count < 2 ^ 32) × (filter ≤ most_filter) }
    ensures { image.new ≡ put_at image.old at (head_bytes filter count) }
{
    put_word(image, at, FIRST_WORD + filter as u32);
    put_word(image, at + 4, count as u32);
}

// Lays words of a numbered table, each `step` words behind the one before. Answers where they end.
fn lay_words(
    numbered: &[usize],
    image: &mut [u8],
    from: usize,
    step: usize,
    count: usize,
    at: usize,
) -> usize
    requires by_index { (b : ℕ) → b < count → (from + step * b < length numbered.now) × (get_or numbered.now (from + step * b) 0 < 2 ^ 32) }
    requires count_in_bounds { at + 4 * count ≤ length image.old }
    ensures { Laid image.old image.new at (words_of (λ b. get_or numbered.now (from + step * b) 0) count) result }
{
    for b in 0..count {
        let word = numbered[from + step * b];
        put_word(image, at + 4 * b, word as u32);
    }
    at + 4 * count
}

// Sets the two bits of a hash in the filter word at an offset of the image.
fn add_hash(image: &mut [u8], at: usize, hash: u32)
    requires { at + 4 ≤ length image.old }
    ensures { image.new ≡ put_at image.old at (word (with_hash (word_at image.old at) hash)) }
{
    let first = put_bit(word_at(image, at), hash);
    put_word(image, at, put_bit(first, hash / 32));
}

// Lays a table's filter words: zeros first, then each item sets its two bits in the word that its hash falls to.
fn lay_filter(
    numbered: &[usize],
    image: &mut [u8],
    first: usize,
    count: usize,
    at: usize,
    filter: usize,
)
    requires numbered_len { (length numbered.now ≡ numbered_size) × (first + count ≤ most_items) }
    requires by_index { (k : ℕ) → k < count → slot_hash numbered.now (first + k) < 2 ^ 32 }
    requires filter_in_bounds { at + filter_size * filter ≤ length image.old }
    ensures { image.new ≡ put_at image.old at (slot_filter numbered.now filter first count) }
{
    if filter == 0 {
        return;
    }
    fill(image, at, FILTER_SIZE * filter, 0);
    for k in 0..count {
        let hash = slot_word(numbered, first + k, HASH);
        add_hash(image, at + FILTER_SIZE * (hash / 32 % filter), hash as u32);
    }
}

// Lays what stands before a table's records: its head, its filter words and its bucket words.
pub fn lay_front(
    numbered: &[usize],
    image: &mut [u8],
    first: usize,
    count: usize,
    at: usize,
    filter: usize,
)
    requires numbered_len { (length numbered.now ≡ numbered_size) × (first + count ≤ most_items) × (filter ≤ most_filter) }
    requires by_index { (b : ℕ) → b < count → (slot_hash numbered.now (first + b) < 2 ^ 32) × (slot_bucket numbered.now (first + b) < 2 ^ 32) }
    requires count_in_bounds { at + head_size + filter_size * filter + bucket_size * count ≤ length image.old }
    ensures { image.new ≡ put_at image.old at (head_bytes filter count ++ (slot_filter numbered.now filter first count ++ words_of (λ b. slot_bucket numbered.now (first + b)) count)) }
{
    lay_head(image, count, at, filter);
    lay_filter(numbered, image, first, count, at + HEAD_SIZE, filter);
    let from = SLOTS_FROM + SLOT_SIZE * first + BUCKET;
    lay_words(
        numbered,
        image,
        from,
        SLOT_SIZE,
        count,
        at + HEAD_SIZE + FILTER_SIZE * filter,
    );
}

// Lays three words.
fn lay_three(image: &mut [u8], to: usize, a: usize, b: usize, c: usize)
    requires to_in_bounds { to + 12 ≤ length image.old }
    requires a_bound { (a < 2 ^ 32) × (b < 2 ^ 32) × (c < 2 ^ 32) }
    ensures { image.new ≡ put_at image.old to (word a ++ (word b ++ word c)) }
{
    put_word(image, to, a as u32);
    put_word(image, to + 4, b as u32);
    put_word(image, to + 8, c as u32);
}

// gvdb-rs: HashItem::new.
// Lays the record of a slot whose key is at `at` and whose value is at `start`.
pub fn lay_record(
    numbered: &[usize],
    image: &mut [u8],
    slot: usize,
    to: usize,
    at: usize,
    start: usize,
    filter: usize,
)
    requires slot_in { SlotIn numbered.now slot }
    requires cover_fits { CoverFits numbered.now slot }
    requires record_fits { RecordFits filter numbered.now slot at start }
    requires filter_le_most_filter { filter ≤ most_filter }
    requires record_size_in_bounds { to + record_size ≤ length image.old }
    ensures { image.new ≡ put_at image.old to (slot_record numbered.now filter slot at start) }
{
    let hash = slot_word(numbered, slot, HASH);
    let parent = slot_word(numbered, slot, PARENT);
    lay_three(image, to, hash, parent, at);
    let size = slot_word(numbered, slot, FRAGMENT_SIZE);
    let kind = slot_word(numbered, slot, KIND);
    let stop = start + cover(numbered, slot, filter);
    lay_three(image, to + 12, size + 65536 * kind, start, stop);
}

// gvdb-rs: allocate_chunk_with_data.
// Lays a part of the arena. Answers where it ends.
fn lay_part(arena: &[u8], image: &mut [u8], start: usize, size: usize, at: usize) -> usize
    requires size_in_bounds { start + size ≤ length arena.now }
    requires size_in_bounds_2 { at + size ≤ length image.old }
    ensures { Laid image.old image.new at (part arena.now start size) result }
{
    let end = start + size;
    put(image, at, &arena[start..end]);
    at + size
}

// gvdb-rs: add_string.
// Lays a slot's fragment at `at`, and zeros up to its value at `start`.
pub fn lay_key(
    numbered: &[usize],
    arena: &[u8],
    image: &mut [u8],
    slot: usize,
    at: usize,
    start: usize,
)
    requires slot_in { SlotIn numbered.now slot }
    requires slot_in_bounds { slot_fragment numbered.now slot + slot_fragment_size numbered.now slot ≤ length arena.now }
    requires slot_bound { (at + slot_fragment_size numbered.now slot ≤ start) × (start ≤ length image.old) }
    ensures { image.new ≡ put_at image.old at (slot_key numbered.now arena.now slot at start) }
{
    let from = slot_word(numbered, slot, FRAGMENT);
    let size = slot_word(numbered, slot, FRAGMENT_SIZE);
    let end = lay_part(arena, image, from, size, at);
    fill(image, end, start - end, 0);
}

// gvdb-rs: add_value.
// Lays a slot's value that is no nested table: bytes, or children. Answers where it ends.
pub fn lay_plain(
    numbered: &[usize],
    arena: &[u8],
    image: &mut [u8],
    slot: usize,
    at: usize,
) -> usize
    requires numbered_fits { NumberedFits numbered.now arena.now }
    requires slot_lt_most_items { slot < most_items }
    requires fact { slot_kind numbered.now slot ≡ table_kind → ⊥ }
    requires slot_in_bounds { at + length (plain_value numbered.now arena.now slot) ≤ length image.old }
    ensures { Laid image.old image.new at (plain_value numbered.now arena.now slot) result }
{
    let kind = slot_word(numbered, slot, KIND);
    let start = slot_word(numbered, slot, VALUE);
    let size = slot_word(numbered, slot, VALUE_SIZE);
    if kind == VALUE_KIND {
        return lay_part(arena, image, start, size, at);
    }
    lay_words(numbered, image, CHILDREN_FROM + start, 1, size, at)
}
