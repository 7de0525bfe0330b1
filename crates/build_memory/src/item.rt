// Items made and written again.
ghost use Rattle.std.specs.Prelude.{◌≡◌, [], ◌∷◌, ◌+◌, ◌<◌, ◌≤◌, length};
ghost use Rattle.key_hash.specs.Hash.{hash_of};
ghost use Rattle.words.specs.Store.{put_at};
ghost use Rattle.layout.specs.Limits.{most_items};
ghost use Rattle.build_memory.specs.Memory.{least_words, buckets, head_at, item_at, item_total, room_used, memory};
ghost use Rattle.build_memory.specs.Item.{stored, kind_of, make_item, replace_item};

use crate::fields::{BUCKETS, HEADS_FROM, ITEM_SIZE, ITEMS, ITEMS_FROM, KIND, USED};
use layout::kind::{Kind, TABLE_KIND, VALUE_KIND};
use words::store::put;

// The kind that a word of a record says. No `TryFrom`: the definition `kind_of` takes every other word for a container.
#[tactic(auto, unfolding(crate::specs::Item::kind_of, words::specs::Choice::pick))]
pub fn kind_of(word: usize) -> Kind
    ensures { result ≡ kind_of word }
{
    if word == VALUE_KIND {
        return Kind::Value;
    }
    if word == TABLE_KIND {
        return Kind::Table;
    }
    Kind::Container
}

// Where an item stands: its table, its key's hash, start and length, the item before it in its bucket, its parent's index plus 1 (0: none).
#[derive(Clone, Copy)]
struct Spot {
    table: usize,
    hash: usize,
    older: usize,
    start: usize,
    size: usize,
    parent: usize,
}

// Writes where item i stands.
fn put_spot(words: &mut [usize], i: usize, spot: Spot)
    requires { (least_words ≤ length words.old) × (i < most_items) }
    ensures { words.new ≡ put_at words.old (item_at i) (spot.table ∷ spot.hash ∷ spot.older ∷ spot.start ∷ spot.size ∷ spot.parent ∷ []) }
{
    let at = ITEMS_FROM + ITEM_SIZE * i;
    let row = [
        spot.table,
        spot.hash,
        spot.older,
        spot.start,
        spot.size,
        spot.parent,
    ];
    put(words, at, &row);
}

// Writes what item i holds: its kind, its value's start and length, the table it holds.
fn put_held(words: &mut [usize], i: usize, kind: usize, start: usize, size: usize, guest: usize)
    requires { (least_words ≤ length words.old) × (i < most_items) }
    ensures { words.new ≡ put_at words.old (item_at i + 6) (kind ∷ start ∷ size ∷ guest ∷ []) }
{
    let at = ITEMS_FROM + ITEM_SIZE * i + KIND;
    let row = [kind, start, size, guest];
    put(words, at, &row);
}

// Writes the head of a bucket.
#[tactic(auto, unfolding(words::specs::Store::put_at))]
fn put_head(words: &mut [usize], bucket: usize, i: usize)
    requires { (least_words ≤ length words.old) × (bucket < buckets) }
    ensures { words.new ≡ put_at words.old (head_at bucket) (i ∷ []) }
{
    words[HEADS_FROM + bucket] = i;
}

// Writes the counts: the items, and the room used.
fn put_counts(words: &mut [usize], items: usize, used: usize)
    requires { least_words ≤ length words.old }
    ensures { words.new ≡ put_at words.old 3 (items ∷ used ∷ []) }
{
    let row = [items, used];
    put(words, ITEMS, &row);
}

// What is told of a new item besides its key and value: its table, its parent's index plus 1 (0: none), its kind, the table it holds.
// The kind is a record's word, as the definition `stored` has it.
#[derive(Clone, Copy)]
pub struct NewItem {
    pub table: usize,
    pub parent: usize,
    pub kind: usize,
    pub guest: usize,
}

// gvdb-rs: HashItemBuilder::new.
// Makes the next item. Its key, whose hash is given, and its value are stored where the room used ends.
pub fn make_item(
    words: &mut [usize],
    arena: &mut [u8],
    new: NewItem,
    key: &[u8],
    hash: usize,
    value: &[u8],
)
    requires least_words_in_bounds { (least_words ≤ length words.old) × (item_total words.old < most_items) }
    requires value_in_bounds { room_used words.old + length key.now + length value.now ≤ length arena.old }
    requires hash_value { hash ≡ hash_of key.now }
    ensures { memory words.new arena.new ≡ make_item (memory words.old arena.old) new.table new.parent key.now (stored new.kind value.now new.guest) }
{
    let n = words[ITEMS];
    let room = words[USED];
    let bucket = hash % BUCKETS;
    let older = words[HEADS_FROM + bucket];
    let from = room + key.len();
    put(arena, room, key);
    put(arena, from, value);
    put_spot(
        words,
        n,
        Spot {
            table: new.table,
            hash,
            older,
            start: room,
            size: key.len(),
            parent: new.parent,
        },
    );
    put_held(words, n, new.kind, from, value.len(), new.guest);
    put_head(words, bucket, n);
    put_counts(words, n + 1, from + value.len());
}

// Writes anew what item i holds. Its value is stored where the room used ends.
pub fn replace_item(
    words: &mut [usize],
    arena: &mut [u8],
    i: usize,
    kind: usize,
    guest: usize,
    value: &[u8],
)
    requires least_words_in_bounds { (least_words ≤ length words.old) × (i < most_items) }
    requires value_in_bounds { room_used words.old + length value.now ≤ length arena.old }
    ensures { memory words.new arena.new ≡ replace_item (memory words.old arena.old) i (stored kind value.now guest) }
{
    let n = words[ITEMS];
    let room = words[USED];
    put(arena, room, value);
    put_held(words, i, kind, room, value.len(), guest);
    put_counts(words, n, room + value.len());
}
