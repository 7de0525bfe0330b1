// The insert of a table into another.
ghost use Rattle.std.specs.Prelude.{◌≡◌, ◌≤◌, ◌<◌, length};
ghost use Rattle.layout.specs.Limits.{most_tables};
ghost use Rattle.build_memory.specs.Memory.{least_words, table_total, Valid, memory, outcome};
ghost use Rattle.build_values.specs.Insert.{Ready};
ghost use Rattle.build_nested.specs.Nest.{place_table, nested, nest_at_key, insert_table};

use crate::height::held_height;
use build_memory::fields::{PLACED, TABLE_SIZE, TABLES_FROM};
use build_memory::rules::judge;
use build_tables::add::is_free_standing;
use build_values::insert::{Job, insert_below_path};
use layout::kind::{Kind, TABLE_KIND};
use layout::limits::{DEEPEST, LONGEST_KEY};
use layout::refusal::Refusal;
use text::utf8::{first_bad, is_utf8};
use words::store::put;

// Notes that a table is placed, and its height.
#[tactic(auto, unfolding(crate::specs::Nest::place_table))]
fn place_table(words: &mut [usize], table: usize, height: usize)
    requires { (least_words ≤ length words.old) × (table < most_tables) }
    ensures { words.new ≡ place_table words.old table height }
{
    let at = TABLES_FROM + TABLE_SIZE * table + PLACED;
    let row = [1, height];
    put(words, at, &row);
}

// Inserts the guest's item, and places the guest where that is not refused.
#[tactic(auto, using(crate::proofs::NestLaws::deep_is), unfolding(crate::specs::Nest::nested, crate::specs::Nest::settled, crate::specs::Nest::when_accepted))]
fn insert_nested(
    words: &mut [usize],
    arena: &mut [u8],
    table: usize,
    key: &[u8],
    guest: usize,
) -> Result<Option<Kind>, Refusal>
    requires ready { Ready words.old arena.old table key.now }
    requires guest_bound { guest < table_total words.old }
    ensures { outcome result (memory words.new arena.new) ≡ nested words.old arena.old table key.now guest }
{
    let held = held_height(words, guest);
    let deep = DEEPEST - 1 <= held;
    let job = Job {
        table,
        kind: TABLE_KIND,
        guest,
    };
    let replaced = insert_below_path(words, arena, job, key, &key[..0], deep)?;
    place_table(words, guest, held + 1);
    Ok(replaced)
}

// Inserts, unless a table is not free-standing (24), both are one table (25), or the key is not UTF-8 or too long (8, 20).
#[tactic(auto, unfolding(crate::specs::Nest::nest_at_key, build_values::specs::Insert::keyed, words::specs::Choice::pick))]
fn nest_at_key(
    words: &mut [usize],
    arena: &mut [u8],
    table: usize,
    key: &[u8],
    guest: usize,
) -> Result<Option<Kind>, Refusal>
    requires { Valid words.old (length arena.old) }
    ensures { outcome result (memory words.new arena.new) ≡ nest_at_key words.old arena.old table key.now guest }
{
    if !is_free_standing(words, arena, table) {
        return Err(Refusal::TableUnknown);
    }
    if !is_free_standing(words, arena, guest) {
        return Err(Refusal::TableUnknown);
    }
    if table == guest {
        return Err(Refusal::TableInItself);
    }
    if !is_utf8(key) {
        return Err(Refusal::KeyNotUtf8(first_bad(key)));
    }
    if LONGEST_KEY < key.len() {
        return Err(Refusal::KeyTooLong);
    }
    insert_nested(words, arena, table, key, guest)
}

// gvdb-rs: HashTableBuilder::insert_table.
// Inserts a table under a key of another: 29, 24 for the receiver, 24 for the guest, 25, 8, 20, 21, 26, 22, 23, or the news.
#[tactic(auto, using(build_memory::proofs::MemoryLaws::valid_facts), unfolding(crate::specs::Nest::insert_table, words::specs::Choice::pick))]
pub fn insert_table(
    words: &mut [usize],
    arena: &mut [u8],
    table: u32,
    key: &[u8],
    guest: u32,
) -> Result<Option<Kind>, Refusal>
    ensures { outcome result (memory words.new arena.new) ≡ insert_table words.old arena.old table key.now guest }
{
    if !judge(words, arena) {
        return Err(Refusal::MemoryBroken);
    }
    let t = table as usize;
    let g = guest as usize;
    nest_at_key(words, arena, t, key, g)
}
