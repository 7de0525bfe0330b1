// The children of every container, in order of creation: bucket by bucket, where parent words stand for the hashes, and rank p for item n - 1 - p, since each
// goes to the front of its bucket.
ghost use Rattle.std.specs.Prelude.{◌≡◌, true, ℕ, ◌<◌, ◌≤◌, length, get_or};
ghost use Rattle.layout.specs.Limits.{most_items};
ghost use Rattle.build_memory.specs.Memory.{least_words, item_total};
ghost use Rattle.build_rules.specs.Valid.{fully_valid};
ghost use Rattle.write_numbers.specs.Roster.{roster_size};
ghost use Rattle.write_parts.specs.Numbered.{numbered_size};
ghost use Rattle.write_slots.specs.NumberedAs.{Parents, Siblings, NumberedChildren, firsts_size};

use build_memory::fields::{EMPTY, ITEMS, PARENT, item_word};
use layout::limits::MOST_ITEMS;
use write_numbers::roster::INDICES_FROM;
use write_order::buckets::index_by_bucket;
use write_parts::numbered::CHILDREN_FROM;

// The words of the firsts: one for each parent word, and one behind the last.
pub const FIRSTS_SIZE: usize = MOST_ITEMS + 2;

// The parent words by rank: that of the last item first.
fn list_parents(words: &[usize], hashes: &mut [usize])
    requires { (least_words ≤ length words.now) × (item_total words.now ≤ most_items) × (length hashes.old ≡ most_items) }
    ensures { Parents words.now hashes.new }
{
    let n = words[ITEMS];
    for p in 0..n {
        hashes[p] = item_word(words, n - 1 - p, PARENT);
    }
}

// Puts all items, by rank, in the order of their parents. `firsts` gets where those of each parent word start; it comes filled with the item count,
// and keeps that past the last parent word.
pub fn order_siblings(words: &[usize], arena: &[u8], order: &mut [usize], firsts: &mut [usize])
    requires arena_value { fully_valid words.now arena.now ≡ true }
    requires order_len { (length order.old ≡ most_items) × (length firsts.old ≡ firsts_size) }
    requires by_index { (b : ℕ) → b < firsts_size → get_or firsts.old b 0 ≡ item_total words.now }
    ensures { Siblings words.now order.new firsts.new }
{
    let n = words[ITEMS];
    // Side by side, in fixed memory: `index_by_bucket` has each as a list of its own.
    let mut hashes = [0usize; MOST_ITEMS];
    let mut links = [EMPTY; MOST_ITEMS];
    list_parents(words, &mut hashes);
    index_by_bucket(&hashes[..n], &mut links, order, firsts);
}

// Puts the laid indices of all children, parent by parent.
pub fn put_children(words: &[usize], roster: &[usize], order: &[usize], numbered: &mut [usize])
    requires least_words_in_bounds { (least_words ≤ length words.now) × (item_total words.now ≤ most_items) }
    requires roster_len { (length roster.now ≡ roster_size) × (length numbered.old ≡ numbered_size) }
    requires order_len { (length order.now ≡ most_items) × ((j : ℕ) → j < item_total words.now → get_or order.now j 0 < item_total words.now) }
    ensures { NumberedChildren words.now roster.now order.now numbered.old numbered.new }
{
    let n = words[ITEMS];
    for j in 0..n {
        let place = order[j];
        let child = n - 1 - place;
        numbered[CHILDREN_FROM + j] = roster[INDICES_FROM + child];
    }
}
