// New tables, and whether a table is free-standing.
ghost use Rattle.std.specs.Prelude.{◌≡◌, ◌<◌, ◌^◌, length};
ghost use Rattle.model.specs.Builder.{separator_of};
ghost use Rattle.build_memory.specs.Memory.{Valid, memory, outcome};
ghost use Rattle.build_tables.specs.Table.{free_standing, add_table, new_table};

use build_memory::fields::{
    LAST_SEPARATOR, NO_SEPARATOR, PLACED, TABLE_SIZE, TABLES, TABLES_FROM, table_word,
};
use build_memory::rules::judge;
use layout::limits::MOST_TABLES;
use layout::refusal::Refusal;
use words::store::put;

// A number that fits the answers' width.
pub fn narrow(n: usize) -> u32
    requires { n < 2 ^ 32 }
    ensures { result ≡ n }
{
    n as u32
}

// A separator as its word: 0 for one outside the domain. No `Option`: the definition `separator_of` answers 0.
#[tactic(auto, unfolding(model::specs::Builder::separator_of, words::specs::Choice::pick))]
fn separator_word(separator: &[u8]) -> usize
    ensures { result ≡ separator_of separator.now }
{
    if separator.len() == 0 {
        return NO_SEPARATOR;
    }
    if separator.len() != 1 {
        return 0;
    }
    let b = separator[0] as usize;
    if b <= LAST_SEPARATOR {
        return b;
    }
    0
}

// Whether a table is free-standing: known and not placed.
#[tactic(auto, unfolding(crate::specs::Table::free_standing))]
pub fn is_free_standing(words: &[usize], arena: &[u8], table: usize) -> bool
    requires { Valid words.now (length arena.now) }
    ensures { result ≡ free_standing words.now table }
{
    if words[TABLES] <= table {
        return false;
    }
    table_word(words, table, PLACED) == 0
}

// The next table, with a separator's word.
#[tactic(auto, unfolding(crate::specs::Table::add_table, words::specs::Choice::pick))]
fn add_table(words: &mut [usize], arena: &[u8], separator: usize) -> Result<u32, Refusal>
    requires { Valid words.old (length arena.now) }
    ensures { outcome result (memory words.new arena.now) ≡ add_table words.old arena.now separator }
{
    let t = words[TABLES];
    if MOST_TABLES <= t {
        return Err(Refusal::TooManyTables);
    }
    let at = TABLES_FROM + TABLE_SIZE * t;
    let row = [separator, 0, 0];
    put(words, at, &row);
    let count = [t + 1];
    put(words, TABLES, &count);
    Ok(narrow(t))
}

// gvdb-rs: HashTableBuilder::new, with_path_separator.
// A new, empty table with the separator: 29, 28, 27.
#[tactic(auto, using(build_memory::proofs::MemoryLaws::valid_facts), unfolding(crate::specs::Table::new_table, words::specs::Choice::pick))]
pub fn new_table(words: &mut [usize], arena: &[u8], separator: &[u8]) -> Result<u32, Refusal>
    ensures { outcome result (memory words.new arena.now) ≡ new_table words.old arena.now separator.now }
{
    if !judge(words, arena) {
        return Err(Refusal::MemoryBroken);
    }
    let byte = separator_word(separator);
    if byte == 0 {
        return Err(Refusal::SeparatorOutside);
    }
    add_table(words, arena, byte)
}
