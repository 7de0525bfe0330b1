// The count of a table's items.
ghost use Rattle.std.specs.Prelude.{◌≡◌, ◌≤◌, length};
ghost use Rattle.layout.specs.Limits.{most_items};
ghost use Rattle.build_memory.specs.Memory.{least_words, item_total};
ghost use Rattle.build_tables.specs.Table.{count_of, item_count};

use crate::add::narrow;
use build_memory::fields::{ITEMS, TABLE, TABLES, item_word};
use build_memory::rules::judge;
use layout::refusal::Refusal;

// How many items are of the table.
#[tactic(auto, unfolding(crate::specs::Table::count_of, words::specs::Choice::pick))]
fn count_of(words: &[usize], table: usize) -> usize
    requires { (least_words ≤ length words.now) × (item_total words.now ≤ most_items) }
    ensures value { result ≡ count_of words.now table (item_total words.now) }
    ensures few { result ≤ most_items }
{
    let mut count = 0;
    for i in 0..words[ITEMS] {
        if item_word(words, i, TABLE) == table {
            count += 1;
        }
    }
    count
}

// gvdb-rs: HashTableBuilder::len, is_empty.
// How many items a table has, containers included: 29, then 24 for a number that is unknown.
#[tactic(auto, using(build_memory::proofs::MemoryLaws::valid_facts), unfolding(crate::specs::Table::item_count, words::specs::Choice::pick))]
pub fn item_count(words: &[usize], arena: &[u8], table: u32) -> Result<u32, Refusal>
    ensures { result ≡ item_count words.now arena.now table }
{
    if !judge(words, arena) {
        return Err(Refusal::MemoryBroken);
    }
    let t = table as usize;
    if words[TABLES] <= t {
        return Err(Refusal::TableUnknown);
    }
    Ok(narrow(count_of(words, t)))
}
