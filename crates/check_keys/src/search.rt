// Looking up the joined key of an item, with no buffer for it.
ghost use Rattle.std.specs.Prelude.{◌≡◌, ◌<◌};
ghost use Rattle.key_hash.specs.Hash.{hash_by, rule_of};
ghost use Rattle.layout.specs.Table.{InFile};
ghost use Rattle.read_chain.specs.Chain.{key_of, names};
ghost use Rattle.read_find.specs.Find.{manner_of, item_matches, first_of, find_item};
ghost use Rattle.check_hash.specs.Key.{bytes_of, Keyed};
ghost use Rattle.check_keys.specs.Front.{FrontFits, ItemCompared};

use crate::front::{Front, front_at, pass_back};
use layout::item::item_at;
use layout::table::Table;
use read_chain::chain::climb;
use read_find::find::{Run, bloom_passes, first_in, run_of};
use read_find::manner::Manner;

// What an item says of a front: yes or no, or that its parent has to name what is left of it. An enum: neither is a failure or an absence.
#[derive(Clone, Copy)]
pub enum Compared {
    Ended(bool),
    Rest { parent: usize, front: Front },
}

// What item `at` says of a front. Bytes are compared first, so an item that differs costs no more than that.
#[tactic(auto, using(crate::proofs::SameLaws::item_says))]
fn compare_item(file: &[u8], table: Table, at: usize, front: Front) -> Compared
    requires { InFile file.now table × FrontFits file.now table front × (at < table.count) }
    ensures { ItemCompared file.now table at front result }
{
    let item = item_at(file, table, at);
    let start = item.key as usize;
    let end = start + item.size as usize;
    if file.len() < end {
        return Compared::Ended(false);
    }
    let Some(next) = pass_back(file, table, front, start, end) else {
        return Compared::Ended(false);
    };
    match climb(file, table.count, item) {
        Ok(Some(parent)) => Compared::Rest {
            parent,
            front: next,
        },
        Ok(None) => Compared::Ended(next.size == 0),
        Err(_) => Compared::Ended(false),
    }
}

// Whether the chain of item `at` names the joined key of item `index`, which has `size` bytes. The two are compared from the back.
#[tactic(auto, using(crate::proofs::SameLaws::same_over))]
fn same_key(file: &[u8], table: Table, at: usize, index: usize, size: usize) -> bool
    requires { Keyed file.now table index size × (at < table.count) }
    ensures { result ≡ names (key_of file.now table table.count at) (bytes_of (key_of file.now table table.count index)) }
{
    let mut here = front_at(file, table, index, size, table.count);
    let mut now_at = at;
    for _ in 0..table.count {
        match compare_item(file, table, now_at, here) {
            Compared::Ended(answer) => {
                return answer;
            }
            Compared::Rest { parent, front } => {
                now_at = parent;
                here = front;
            }
        }
    }
    false
}

// Whether item `at` has the hash, and its chain names the joined key of item `index`.
#[tactic(auto, using(check_hash::proofs::KeyLaws::names_at), unfolding(read_find::specs::Find::item_matches, words::specs::Choice::pick))]
fn joined_matches(
    file: &[u8],
    table: Table,
    index: usize,
    size: usize,
    hash: u32,
    at: usize,
    manner: Manner,
) -> bool
    requires { Keyed file.now table index size × (at < table.count) × (hash ≡ hash_by (rule_of manner.form) (bytes_of (key_of file.now table table.count index))) }
    ensures { result ≡ item_matches (manner_of manner) file.now table (bytes_of (key_of file.now table table.count index)) at }
{
    let item = item_at(file, table, at);
    item.hash == hash && (at == index || same_key(file, table, at, index, size))
}

// The first item of a run that matches.
fn first_same(
    file: &[u8],
    table: Table,
    index: usize,
    size: usize,
    hash: u32,
    run: Run,
    manner: Manner,
) -> Option<usize>
    requires { Keyed file.now table index size × (hash ≡ hash_by (rule_of manner.form) (bytes_of (key_of file.now table table.count index))) }
    ensures { result ≡ first_of (manner_of manner) file.now table (bytes_of (key_of file.now table table.count index)) run }
{
    first_in(
        run,
        table.count,
        |at| joined_matches(file, table, index, size, hash, at, manner),
    )
}

// The item that the joined key of item `index` names; the key's length and hash are known. Beside `find_item` it has no key to hash and another test of an
// item: what both do is `first_in`.
#[tactic(auto, unfolding(read_find::specs::Find::find_item, words::specs::Choice::pick))]
pub fn find_joined(
    file: &[u8],
    table: Table,
    index: usize,
    size: usize,
    hash: u32,
    manner: Manner,
) -> Option<usize>
    requires { Keyed file.now table index size × (hash ≡ hash_by (rule_of manner.form) (bytes_of (key_of file.now table table.count index))) }
    ensures { result ≡ find_item (manner_of manner) file.now table (bytes_of (key_of file.now table table.count index)) }
{
    if table.buckets == 0 || !bloom_passes(file, table, hash, manner.lookup) {
        return None;
    }
    let run = run_of(file, table, hash as usize % table.buckets);
    first_same(file, table, index, size, hash, run, manner)
}
