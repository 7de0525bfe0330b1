// The items of one table in the order of their indices: each is put into the chain of its bucket at the place of its key, and the chains, in which keys fall, are
// taken apart. A chain runs from the head of its bucket through the links of the builder's words.
ghost use Rattle.std.specs.Prelude.{◌≡◌, ℕ, ◌≤◌, ◌<◌, List, length, get_or};
ghost use Rattle.words.specs.Store.{put_at};
ghost use Rattle.key_order.specs.Order.{precedes};
ghost use Rattle.layout.specs.Limits.{most_items};
ghost use Rattle.layout.specs.Item.{no_item};
ghost use Rattle.model.specs.Table.{times};
ghost use Rattle.build_memory.specs.Memory.{least_words, key_of};
ghost use Rattle.image.specs.Index.{by_bucket};
ghost use Rattle.write_order.specs.Key.{Known};
ghost use Rattle.write_order.specs.Fall.{last_above};
ghost use Rattle.write_order.specs.Items.{by_rank, rank_hashes, items_at};
ghost use Rattle.write_order.specs.Chain.{Chain, Bounded, Placed, ChainedBy, Empty, Rooms, ButLinks, links_of, starts};

use crate::buckets::index_all;
use crate::items::hash_of;
use build_memory::fields::{EMPTY, LEAST_WORDS, LINKS_FROM, key_of};
use key_hash::hash::Form;
use key_order::keyorder::less;
use layout::limits::MOST_ITEMS;

// Whether the key of item a comes before that of item b.
fn comes_before(words: &[usize], arena: &[u8], a: usize, b: usize) -> bool
    requires { (least_words ≤ length words.now) × (a < most_items) × (b < most_items) }
    ensures { result ≡ precedes (key_of words.now arena.now a) (key_of words.now arena.now b) }
{
    less(key_of(words, arena, a), key_of(words, arena, b))
}

// The item of a chain behind which item i is put, or the empty mark: the last of those whose keys come behind that of i.
// No `Option`: the definition `last_above` answers the mark, which a link holds.
fn last_above(words: &[usize], arena: &[u8], head: usize, i: usize) -> usize
    requires { (least_words ≤ length words.now) × (i < most_items) × Bounded (links_of words.now) head }
    ensures by_index { (l : List ℕ) → Chain (links_of words.now) head l → result ≡ last_above (key_of words.now arena.now) i no_item l }
    ensures upper_bound { (result ≡ no_item → ⊥) → result < most_items }
{
    let mut last = EMPTY;
    let mut p = head;
    // A `while`: p goes from link to link, and the chain's end is known only when it is met.
    while p != EMPTY {
        if !comes_before(words, arena, i, p) {
            return last;
        }
        last = p;
        p = words[LINKS_FROM + p];
    }
    last
}

// Puts item i into the chain of bucket b.
fn chain_item(words: &mut [usize], arena: &[u8], heads: &mut [usize], b: usize, i: usize)
    requires least_words_in_bounds { (least_words ≤ length words.old) × (i < most_items) × (b < length heads.old) }
    requires bounded { Bounded (links_of words.old) (get_or heads.old b 0) }
    ensures but_links { ButLinks words.old words.new }
    ensures placed { Placed (key_of words.old arena.now) (links_of words.old) heads.old b i (links_of words.new) heads.new }
{
    let last = last_above(words, arena, heads[b], i);
    if last == EMPTY {
        words[LINKS_FROM + i] = heads[b];
        heads[b] = i;
        return;
    }
    words[LINKS_FROM + i] = words[LINKS_FROM + last];
    words[LINKS_FROM + last] = i;
}

// gvdb-rs: SimpleHashTable::insert.
// Puts each item of `members` into the chain of its bucket; there are as many buckets as items.
fn chain_members(
    words: &mut [usize],
    arena: &[u8],
    members: &[usize],
    heads: &mut [usize],
    form: Form,
)
    requires known { Known words.old members.now × ((x : ℕ) → times x members.now ≤ 1) }
    requires members_len_bound { (length members.now ≤ most_items) × (length members.now ≤ length heads.old) }
    requires empty { Empty heads.old × Empty (links_of words.old) }
    ensures but_links { ButLinks words.old words.new }
    ensures chained_by { ChainedBy form words.old arena.now members.now (length members.now) heads.new (links_of words.new) }
{
    for &i in members {
        let b = hash_of(words, arena, i, form) % members.len();
        chain_item(words, arena, heads, b, i);
    }
}

// gvdb-rs: SimpleHashTable::with_n_buckets.
// Puts the items of `members` into `items` in the order of their indices, and the words of the buckets into `firsts`. The links hold the empty mark before and after.
pub fn index_by_key(
    words: &mut [usize],
    arena: &[u8],
    members: &[usize],
    items: &mut [usize],
    firsts: &mut [usize],
    form: Form,
)
    requires known { Known words.old members.now × ((x : ℕ) → times x members.now ≤ 1) }
    requires rooms { Rooms (length members.now) items.old firsts.old × Empty (links_of words.old) }
    ensures words_unchanged { words.new ≡ words.old }
    ensures after { items.new ≡ put_at items.old 0 (items_at (by_rank words.old arena.now members.now) (by_bucket (rank_hashes form words.old arena.now members.now))) }
    ensures firsts_after { firsts.new ≡ put_at firsts.old 0 (starts (rank_hashes form words.old arena.now members.now)) }
{
    // A fixed array, of which each bucket has a word: there is no heap.
    let mut heads = [EMPTY; MOST_ITEMS];
    chain_members(words, arena, members, &mut heads, form);
    index_all(
        members.len(),
        &heads,
        &mut words[LINKS_FROM..LEAST_WORDS],
        items,
        firsts,
    );
}
