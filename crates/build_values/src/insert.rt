// The insert of a value: each stage refuses, or hands on to the next. What is written was decided before.
ghost use Rattle.std.specs.Prelude.{◌≡◌, ◌+◌, ◌≤◌, ◌<◌, length, take};
ghost use Rattle.key_hash.specs.Hash.{hash_of};
ghost use Rattle.key_order.specs.Prefix.{ends_past};
ghost use Rattle.layout.specs.Limits.{most_items};
ghost use Rattle.build_memory.specs.Memory.{least_words, item_total, room_used, table_separator, Valid, memory, outcome};
ghost use Rattle.build_memory.specs.Item.{stored};
ghost use Rattle.build_values.specs.Walk.{sum};
ghost use Rattle.build_values.specs.Insert.{Ready, extended, containers, added, insert_new, overwrite, insert_or_replace, insert_below_path, insert_at_key, insert_value};

use crate::walk::{Walked, cost_of, descend_to};
use build_memory::fields::{ITEMS, KIND, SEPARATOR, USED, item_word, table_word};
use build_memory::find::find_hashed;
use build_memory::item::{NewItem, kind_of, make_item, replace_item};
use build_memory::rules::judge;
use build_tables::add::is_free_standing;
use key_hash::hash::{Form, hash_on};
use key_order::prefix::next_end;
use layout::kind::{CONTAINER_KIND, Kind, VALUE_KIND};
use layout::limits::{LONGEST_KEY, MOST_ITEMS};
use layout::refusal::Refusal;
use text::utf8::{first_bad, is_utf8};

// What an insert is told besides key and value: the table, the kind of the item, the table it will hold. The kind is a record's word, as the definition `stored` has it.
#[derive(Clone, Copy)]
pub struct Job {
    pub table: usize,
    pub kind: usize,
    pub guest: usize,
}

// Makes the containers of the key that are missing past the walk. Answers the last container's index plus 1 (0: the key has none).
fn make_containers(
    words: &mut [usize],
    arena: &mut [u8],
    table: usize,
    key: &[u8],
    sep: usize,
    walked: Walked,
) -> usize
    requires least_words_in_bounds { (least_words ≤ length words.old) × (walked.way.from ≤ length key.now) }
    requires hash_value { walked.hash ≡ hash_of (take walked.way.from key.now) }
    requires from_bound { item_total words.old + length (ends_past sep key.now walked.way.from) ≤ most_items }
    requires from_in_bounds { room_used words.old + sum (ends_past sep key.now walked.way.from) ≤ length arena.old }
    ensures result_after { extended (memory words.new arena.new) result ≡ containers table key.now (ends_past sep key.now walked.way.from) (memory words.old arena.old) walked.way.parent }
    ensures counts { (item_total words.new + 1 ≡ item_total words.old + length (ends_past sep key.now walked.way.from)) × (room_used words.new + length key.now ≡ room_used words.old + sum (ends_past sep key.now walked.way.from)) }
{
    let way = walked.way;
    let mut at = way.from;
    let mut above = way.parent;
    let mut hash = walked.hash;
    // A `loop`: `at` goes from one prefix's end to the next, by separators.
    loop {
        let e = next_end(key, at, sep);
        if key.len() <= e {
            return above;
        }
        let n = words[ITEMS];
        let count = n + 1;
        let new = NewItem {
            table,
            parent: above,
            kind: CONTAINER_KIND,
            guest: 0,
        };
        let further = hash_on(hash, &key[at..e], Form::Plain);
        let word = further as usize;
        make_item(words, arena, new, &key[..e], word, &key[..0]);
        at = e;
        above = count;
        hash = further;
    }
}

// Makes what is missing past the walk, last the item of the key itself, whose hash is given.
#[tactic(auto, unfolding(crate::specs::Insert::added))]
fn build_new(
    words: &mut [usize],
    arena: &mut [u8],
    job: Job,
    key: &[u8],
    value: &[u8],
    walked: Walked,
    hash: usize,
)
    requires ready { Ready words.old arena.old job.table key.now }
    requires from_in_bounds { (walked.way.from ≤ length key.now) × (walked.hash ≡ hash_of (take walked.way.from key.now)) × (hash ≡ hash_of key.now) }
    requires from_bound { item_total words.old + length (ends_past (table_separator words.old job.table) key.now walked.way.from) ≤ most_items }
    requires value_in_bounds { room_used words.old + sum (ends_past (table_separator words.old job.table) key.now walked.way.from) + length value.now ≤ length arena.old }
    ensures { memory words.new arena.new ≡ added (containers job.table key.now (ends_past (table_separator words.old job.table) key.now walked.way.from) (memory words.old arena.old) walked.way.parent) job.table key.now (stored job.kind value.now job.guest) }
{
    let sep = table_word(words, job.table, SEPARATOR);
    let above = make_containers(words, arena, job.table, key, sep, walked);
    let new = NewItem {
        table: job.table,
        parent: above,
        kind: job.kind,
        guest: job.guest,
    };
    make_item(words, arena, new, key, hash, value);
}

// A new item: counts what is missing, refuses where there is no room (22, 23), and makes it.
#[tactic(auto, unfolding(crate::specs::Insert::insert_new, words::specs::Choice::pick))]
fn insert_new(
    words: &mut [usize],
    arena: &mut [u8],
    job: Job,
    key: &[u8],
    value: &[u8],
    walked: Walked,
    hash: usize,
) -> Result<Option<Kind>, Refusal>
    requires ready { Ready words.old arena.old job.table key.now }
    requires from_in_bounds { (walked.way.from ≤ length key.now) × (walked.hash ≡ hash_of (take walked.way.from key.now)) × (hash ≡ hash_of key.now) }
    ensures { outcome result (memory words.new arena.new) ≡ insert_new words.old arena.old job.table key.now (stored job.kind value.now job.guest) walked.way.from walked.way.parent }
{
    let sep = table_word(words, job.table, SEPARATOR);
    let cost = cost_of(key, walked.way.from, sep);
    if MOST_ITEMS - words[ITEMS] < cost.items {
        return Err(Refusal::TooManyItems);
    }
    let left = arena.len() - words[USED];
    if left < cost.room {
        return Err(Refusal::ArenaFull);
    }
    if left - cost.room < value.len() {
        return Err(Refusal::ArenaFull);
    }
    build_new(words, arena, job, key, value, walked, hash);
    Ok(None)
}

// Item i with other content: refuses where there is no room for the value (23), and writes it.
#[tactic(auto, unfolding(crate::specs::Insert::overwrite, words::specs::Choice::pick))]
fn overwrite_item(
    words: &mut [usize],
    arena: &mut [u8],
    i: usize,
    job: Job,
    value: &[u8],
) -> Result<Option<Kind>, Refusal>
    requires valid { Valid words.old (length arena.old) }
    requires i_bound { i < item_total words.old }
    ensures { outcome result (memory words.new arena.new) ≡ overwrite words.old arena.old i (stored job.kind value.now job.guest) }
{
    let left = arena.len() - words[USED];
    if left < value.len() {
        return Err(Refusal::ArenaFull);
    }
    let old = kind_of(item_word(words, i, KIND));
    replace_item(words, arena, i, job.kind, job.guest, value);
    Ok(Some(old))
}

// Writes the key's item anew where it is there, else makes it.
#[tactic(auto, unfolding(crate::specs::Insert::insert_or_replace, words::specs::Choice::pick))]
fn insert_or_replace(
    words: &mut [usize],
    arena: &mut [u8],
    job: Job,
    key: &[u8],
    value: &[u8],
    walked: Walked,
) -> Result<Option<Kind>, Refusal>
    requires ready { Ready words.old arena.old job.table key.now }
    requires from_in_bounds { (walked.way.from ≤ length key.now) × (walked.hash ≡ hash_of (take walked.way.from key.now)) }
    ensures { outcome result (memory words.new arena.new) ≡ insert_or_replace words.old arena.old job.table key.now (stored job.kind value.now job.guest) walked.way.from walked.way.parent }
{
    let hash = hash_on(walked.hash, &key[walked.way.from..], Form::Plain) as usize;
    let i = find_hashed(words, arena, job.table, key, hash);
    if i < words[ITEMS] {
        return overwrite_item(words, arena, i, job, value);
    }
    insert_new(words, arena, job, key, value, walked, hash)
}

// gvdb-rs: insert_item_value.
// Walks down the containers that are there (21), refuses what is too deep (26), and inserts.
#[tactic(auto, unfolding(crate::specs::Insert::insert_below_path, crate::specs::Walk::way_of, words::specs::Choice::pick))]
pub fn insert_below_path(
    words: &mut [usize],
    arena: &mut [u8],
    job: Job,
    key: &[u8],
    value: &[u8],
    deep: bool,
) -> Result<Option<Kind>, Refusal>
    requires { Ready words.old arena.old job.table key.now }
    ensures { outcome result (memory words.new arena.new) ≡ insert_below_path words.old arena.old job.table key.now (stored job.kind value.now job.guest) deep }
{
    let sep = table_word(words, job.table, SEPARATOR);
    let walked = descend_to(words, arena, job.table, key, sep);
    if !walked.way.clear {
        return Err(Refusal::NotContainer);
    }
    if deep {
        return Err(Refusal::NestedTooDeep);
    }
    insert_or_replace(words, arena, job, key, value, walked)
}

// Inserts, unless the table is not free-standing (24) or the key is not UTF-8 or too long (8, 20).
#[tactic(auto, unfolding(crate::specs::Insert::insert_at_key, crate::specs::Insert::keyed, words::specs::Choice::pick))]
fn insert_at_key(
    words: &mut [usize],
    arena: &mut [u8],
    table: usize,
    key: &[u8],
    value: &[u8],
) -> Result<Option<Kind>, Refusal>
    requires { Valid words.old (length arena.old) }
    ensures { outcome result (memory words.new arena.new) ≡ insert_at_key words.old arena.old table key.now value.now }
{
    if !is_free_standing(words, arena, table) {
        return Err(Refusal::TableUnknown);
    }
    if !is_utf8(key) {
        return Err(Refusal::KeyNotUtf8(first_bad(key)));
    }
    if LONGEST_KEY < key.len() {
        return Err(Refusal::KeyTooLong);
    }
    let job = Job {
        table,
        kind: VALUE_KIND,
        guest: 0,
    };
    insert_below_path(words, arena, job, key, value, false)
}

// gvdb-rs: HashTableBuilder::insert_value; its insert, insert_string, insert_bytes and insert_gvariant encode the value first.
// Inserts a value under a key: 29, 24, 8, 20, 21, 22, 23, or the news.
#[tactic(auto, using(build_memory::proofs::MemoryLaws::valid_facts), unfolding(crate::specs::Insert::insert_value, words::specs::Choice::pick))]
pub fn insert_value(
    words: &mut [usize],
    arena: &mut [u8],
    table: u32,
    key: &[u8],
    value: &[u8],
) -> Result<Option<Kind>, Refusal>
    ensures { outcome result (memory words.new arena.new) ≡ insert_value words.old arena.old table key.now value.now }
{
    if !judge(words, arena) {
        return Err(Refusal::MemoryBroken);
    }
    let t = table as usize;
    insert_at_key(words, arena, t, key, value)
}
