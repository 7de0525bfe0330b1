// Finding the item of a key: the bloom test, the bucket, its run.
ghost use Rattle.std.specs.Prelude.{◌≡◌, ℕ, Bool, true, ◌<◌, ◌-◌};
ghost use Rattle.words.specs.Field.{word_at};
ghost use Rattle.key_hash.specs.Hash.{hash_by, rule_of};
ghost use Rattle.text.specs.Utf8.{is_utf8};
ghost use Rattle.layout.specs.Table.{InFile};
ghost use Rattle.read_find.specs.Find.{shift_of, manner_of, bloom_passes, run_of, item_matches, first_from, first_of, find_item};

use crate::manner::{Lookup, Manner};
use key_hash::hash::hash_key;
use layout::item::item_at;
use layout::table::Table;
use read_chain::chain::chain_names;
use words::bits::{bit_set, bloom_shift};
use words::field::word_at;

// The items of one bucket: the indices from `first` up to `last`.
#[derive(Clone, Copy)]
pub struct Run {
    pub first: usize,
    pub last: usize,
}

// gvdb-rs: bloom_shift, which is 0 there.
// By how much a lookup shifts the hash for the filter's second bit.
#[tactic(auto, unfolding(crate::specs::Find::shift_of, words::specs::Bits::bloom_shift))]
fn shift_of(file: &[u8], table: Table, lookup: Lookup) -> u32
    requires { InFile file.now table }
    ensures { (result ≡ shift_of lookup (word_at file.now table.start)) × (result < 32) }
{
    match lookup {
        Lookup::Rust => 0,
        Lookup::Strict => bloom_shift(word_at(file, table.start)),
    }
}

// gvdb-rs: bloom_filter.
// Whether a hash may be in the table, by its bloom words.
#[tactic(auto, unfolding(crate::specs::Find::bloom_passes, words::specs::Choice::pick))]
pub fn bloom_passes(file: &[u8], table: Table, hash: u32, lookup: Lookup) -> bool
    requires { InFile file.now table }
    ensures { result ≡ bloom_passes (shift_of lookup) file.now table hash }
{
    let blooms = table.blooms;
    if blooms == 0 {
        return true;
    }
    let position = hash as usize / 32 % blooms;
    let word = word_at(file, table.start + 8 + 4 * position);
    let shifted = hash >> shift_of(file, table, lookup);
    bit_set(word, hash) & bit_set(word, shifted)
}

// The run of a bucket.
#[tactic(auto, unfolding(crate::specs::Find::run_of, crate::specs::Find::bucket_word, words::specs::Choice::pick))]
pub fn run_of(file: &[u8], table: Table, bucket: usize) -> Run
    requires { InFile file.now table × (bucket < table.buckets) }
    ensures { result ≡ run_of file.now table bucket }
{
    let at = table.start + 8 + 4 * table.blooms + 4 * bucket;
    let first = word_at(file, at) as usize;
    let last = if bucket + 1 < table.buckets {
        word_at(file, at + 4) as usize
    } else {
        table.count
    };
    Run { first, last }
}

// Whether the item at an index has the key's hash and its chain names the key.
#[tactic(auto, unfolding(crate::specs::Find::item_matches, words::specs::Choice::pick))]
fn item_matches(
    file: &[u8],
    table: Table,
    hash: u32,
    index: usize,
    key: &[u8],
    manner: Manner,
) -> bool
    requires { InFile file.now table × (index < table.count) × (hash ≡ hash_by (rule_of manner.form) key.now) × (is_utf8 key.now ≡ true) }
    ensures { result ≡ item_matches (manner_of manner) file.now table key.now index }
{
    let item = item_at(file, table, index);
    item.hash == hash && chain_names(file, table, index, key)
}

// The first item of a run that passes a test. An index past the last item ends the search.
pub fn first_in<F: Fn(usize) -> bool>(run: Run, count: usize, matches: F) -> Option<usize>
    requires callable { (at : ℕ) → at < count → F.pre matches at }
    ensures { (test : ℕ → Bool) → ((at : ℕ) → at < count → (told : Bool) → F.post matches at told → told ≡ test at) → result ≡ first_from test count (run.last - run.first) run.first }
{
    for at in run.first..run.last {
        if count <= at {
            return None;
        }
        if matches(at) {
            return Some(at);
        }
    }
    None
}

// The first item of a run that matches.
fn first_of(
    file: &[u8],
    table: Table,
    hash: u32,
    run: Run,
    key: &[u8],
    manner: Manner,
) -> Option<usize>
    requires { InFile file.now table × (hash ≡ hash_by (rule_of manner.form) key.now) × (is_utf8 key.now ≡ true) }
    ensures { result ≡ first_of (manner_of manner) file.now table key.now run }
{
    first_in(
        run,
        table.count,
        |at| item_matches(file, table, hash, at, key, manner),
    )
}

// gvdb-rs: get_hash_item.
// The item that a key names, which is UTF-8.
#[tactic(auto, unfolding(crate::specs::Find::find_item, words::specs::Choice::pick))]
pub fn find_item(file: &[u8], table: Table, key: &[u8], manner: Manner) -> Option<usize>
    requires { InFile file.now table × (is_utf8 key.now ≡ true) }
    ensures { result ≡ find_item (manner_of manner) file.now table key.now }
{
    if table.buckets == 0 || table.count == 0 {
        return None;
    }
    let hash = hash_key(key, manner.form);
    if !bloom_passes(file, table, hash, manner.lookup) {
        return None;
    }
    let run = run_of(file, table, hash as usize % table.buckets);
    first_of(file, table, hash, run, key, manner)
}
