// The roster of all tables: their slots stand one behind the other.
ghost use Rattle.std.specs.Prelude.{◌≡◌, true, length};
ghost use Rattle.key_hash.specs.Hash.{rule_of};
ghost use Rattle.layout.specs.Limits.{most_tables};
ghost use Rattle.build_rules.specs.Valid.{fully_valid};
ghost use Rattle.write_parts.specs.Numbered.{slots_from};
ghost use Rattle.write_numbers.specs.Roster.{roster_size, Rostered};
ghost use Rattle.write_numbers.specs.Fill.{Judged, Fits, Sized, Put, Filled};

use crate::collect::has_items;
use crate::roster::{BUCKETS_FROM, INDICES_FROM};
use crate::table::index_table;
use key_hash::hash::Form;
use layout::limits::{MOST_ITEMS, MOST_TABLES};
use words::store::put;
use write_order::items::index_items;
use write_parts::numbered::{HEAD_WORDS, SLOTS_FROM};

// Puts the items of table t into its slots, which start at `first`, with their indices and bucket words. Answers how many there are.
fn put_table(
    words: &mut [usize],
    arena: &[u8],
    t: usize,
    first: usize,
    slots: &mut [usize],
    indices: &mut [usize],
    buckets: &mut [usize],
    form: Form,
) -> usize
    requires judged { Judged words.old arena.now × Fits words.old t first }
    requires sized { Sized slots.old indices.old buckets.old }
    ensures words_unchanged { words.new ≡ words.old }
    ensures put { Put (rule_of form) words.old arena.now t first result slots.old slots.new indices.old indices.new buckets.old buckets.new }
{
    if !has_items(words, t) {
        return 0;
    }
    let n = index_table(
        words,
        arena,
        t,
        &mut slots[first..],
        &mut buckets[first..],
        form,
    );
    index_items(&slots[first..first + n], indices);
    n
}

// Fills the slots of all tables, one behind the other; `heads` gets the first slot and the count of each.
fn fill(
    words: &mut [usize],
    arena: &[u8],
    heads: &mut [usize],
    slots: &mut [usize],
    indices: &mut [usize],
    buckets: &mut [usize],
    form: Form,
)
    requires judged { Judged words.old arena.now × (length heads.old ≡ slots_from) }
    requires sized { Sized slots.old indices.old buckets.old }
    ensures words_unchanged { words.new ≡ words.old }
    ensures filled { Filled (rule_of form) words.old arena.now most_tables heads.new slots.new indices.new buckets.new }
{
    let mut first = 0;
    for t in 0..MOST_TABLES {
        let n = put_table(words, arena, t, first, slots, indices, buckets, form);
        heads[HEAD_WORDS * t] = first;
        heads[HEAD_WORDS * t + 1] = n;
        first += n;
    }
}

// The roster of all tables. The words are used for links, and are as they were.
pub fn roster_all(words: &mut [usize], arena: &[u8], roster: &mut [usize], form: Form)
    requires arena_value { fully_valid words.old arena.now ≡ true }
    requires roster_len { length roster.old ≡ roster_size }
    ensures words_unchanged { words.new ≡ words.old }
    ensures rostered { Rostered (rule_of form) words.old arena.now roster.new }
{
    // Side by side, in fixed memory, since `Rostered` has each as a row of its own.
    let mut heads = [0usize; SLOTS_FROM];
    let mut slots = [0usize; MOST_ITEMS];
    let mut indices = [0usize; MOST_ITEMS];
    let mut buckets = [0usize; MOST_ITEMS];
    fill(
        words,
        arena,
        &mut heads,
        &mut slots,
        &mut indices,
        &mut buckets,
        form,
    );
    put(roster, 0, &heads);
    put(roster, SLOTS_FROM, &slots);
    put(roster, INDICES_FROM, &indices);
    put(roster, BUCKETS_FROM, &buckets);
}
