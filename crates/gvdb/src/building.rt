// Building tables over lent memory.
ghost use Rattle.std.specs.Prelude.{◌≡◌};
ghost use Rattle.build_memory.specs.Memory.{least_words, memory, outcome, fresh_start};
ghost use Rattle.build_memory.specs.Answer.{started_number};
ghost use Rattle.build_tables.specs.Table.{new_table, item_count};
ghost use Rattle.build_values.specs.Insert.{insert_value};
ghost use Rattle.build_nested.specs.Nest.{insert_table};
ghost use Rattle.answers_build.specs.Building.{told, added_answer, counted_answer, inserted_answer};

use answers_build::building::{GvdbCount, GvdbInserted, GvdbTable, started_of};

// The least length of the builder's words.
#[unsafe(no_mangle)]
pub extern "C" fn gvdb_memory_words() -> usize
    ensures { result ≡ least_words }
{
    build_memory::fresh::memory_words()
}

// An empty builder, whatever the memory held.
#[unsafe(no_mangle)]
#[tactic(auto, unfolding(answers_build::specs::Building::told))]
pub extern "C" fn gvdb_fresh(words: &mut [usize], arena: &[u8]) -> u32
    ensures { outcome result (memory words.new arena.now) ≡ told started_number (fresh_start words.old arena.now) }
{
    started_of(build_memory::fresh::fresh(words, arena))
}

// gvdb-rs: HashTableBuilder::with_path_separator.
// A new, empty table with the separator.
#[unsafe(no_mangle)]
#[tactic(auto, unfolding(answers_build::specs::Building::told))]
pub extern "C" fn gvdb_new_table(words: &mut [usize], arena: &[u8], separator: &[u8]) -> GvdbTable
    ensures { outcome result (memory words.new arena.now) ≡ told added_answer (new_table words.old arena.now separator.now) }
{
    build_tables::add::new_table(words, arena, separator).into()
}

// gvdb-rs: HashTableBuilder::insert_value.
// Inserts a value under a key of a table.
#[unsafe(no_mangle)]
#[tactic(auto, unfolding(answers_build::specs::Building::told))]
pub extern "C" fn gvdb_insert(
    words: &mut [usize],
    arena: &mut [u8],
    table: u32,
    key: &[u8],
    value: &[u8],
) -> GvdbInserted
    ensures { outcome result (memory words.new arena.new) ≡ told inserted_answer (insert_value words.old arena.old table key.now value.now) }
{
    build_values::insert::insert_value(words, arena, table, key, value).into()
}

// gvdb-rs: HashTableBuilder::insert_table.
// Inserts a table under a key of another.
#[unsafe(no_mangle)]
#[tactic(auto, unfolding(answers_build::specs::Building::told))]
pub extern "C" fn gvdb_insert_table(
    words: &mut [usize],
    arena: &mut [u8],
    table: u32,
    key: &[u8],
    guest: u32,
) -> GvdbInserted
    ensures { outcome result (memory words.new arena.new) ≡ told inserted_answer (insert_table words.old arena.old table key.now guest) }
{
    build_nested::insert::insert_table(words, arena, table, key, guest).into()
}

// gvdb-rs: HashTableBuilder::len.
// How many items a table has, containers included.
#[unsafe(no_mangle)]
pub extern "C" fn gvdb_item_count(words: &[usize], arena: &[u8], table: u32) -> GvdbCount
    ensures { result ≡ counted_answer (item_count words.now arena.now table) }
{
    build_tables::count::item_count(words, arena, table).into()
}
