// The items of one table by laid index, and the words of its buckets.
ghost use Rattle.std.specs.Prelude.{◌≡◌, ◌≤◌, length};
ghost use Rattle.key_hash.specs.Hash.{rule_of};
ghost use Rattle.write_numbers.specs.Fill.{all_of_table, Judged, IndexedAs};

use crate::collect::collect;
use key_hash::hash::Form;
use layout::limits::MOST_ITEMS;
use write_order::falling::index_by_key;

// gvdb-rs: HashTableBuilder::build.
// Puts the item at each index of table t to the front of `items`, and the word of each bucket to that of `firsts`. Answers how many.
pub fn index_table(
    words: &mut [usize],
    arena: &[u8],
    t: usize,
    items: &mut [usize],
    firsts: &mut [usize],
    form: Form,
) -> usize
    requires { Judged words.old arena.now × (length (all_of_table words.old t) ≤ length items.old) × (length (all_of_table words.old t) ≤ length firsts.old) }
    ensures words_unchanged { words.new ≡ words.old }
    ensures indexed_as { IndexedAs (rule_of form) words.old arena.now t result items.old items.new firsts.old firsts.new }
{
    // A fixed array and how much of it is used: there is no heap.
    let mut members = [0usize; MOST_ITEMS];
    let n = collect(words, t, &mut members);
    index_by_key(words, arena, &members[..n], items, firsts, form);
    n
}
