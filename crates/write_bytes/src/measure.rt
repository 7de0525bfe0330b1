// A table measured before a byte of it is laid: two functions that call each other as in laying, without an image.
ghost use Rattle.std.specs.Prelude.{◌≡◌, ◌+◌, ◌≤◌, ◌<◌, length};
ghost use Rattle.layout.specs.Limits.{longest_file, most_tables, most_items, most_filter};
ghost use Rattle.write_parts.specs.Numbered.{numbered_bytes, NumberedFits};
ghost use Rattle.write_parts.specs.Slot.{slot_item};
ghost use Rattle.write_bytes.specs.Measure.{measured};

use layout::kind::TABLE_KIND;
use layout::limits::LONGEST_FILE;
use layout::sizes::{CHUNK_STEP, FILTER_SIZE, HEAD_SIZE};
use write_parts::numbered::{KIND, VALUE, first_slot, slot_count, slot_word};
use write_parts::slot::{cover, value_start};

// Measures a table that starts at `at`.
#[cycle(measure_item_measure_table)]
pub fn measure_table(
    numbered: &[usize],
    arena: &[u8],
    table: usize,
    at: usize,
    depth: usize,
    filter: usize,
) -> Option<usize>
    requires numbered_fits { NumberedFits numbered.now arena.now }
    requires table_lt_most_tables { (table < most_tables) × (at ≤ longest_file) × (filter ≤ most_filter) }
    ensures { result ≡ measured (at + length (numbered_bytes filter numbered.now arena.now depth table at)) }
{
    if depth == 0 {
        return Some(at);
    }
    let first = first_slot(numbered, table);
    let count = slot_count(numbered, table);
    let mut end = at + HEAD_SIZE + FILTER_SIZE * filter + CHUNK_STEP * count;
    if LONGEST_FILE < end {
        return None;
    }
    for k in 0..count {
        let Some(stop) = measure_item(numbered, arena, first + k, end, depth - 1, filter) else {
            return None;
        };
        end = stop;
    }
    Some(end)
}

// Measures a slot's fragment at `at` and its value behind it.
#[cycle(measure_item_measure_table)]
fn measure_item(
    numbered: &[usize],
    arena: &[u8],
    slot: usize,
    at: usize,
    depth: usize,
    filter: usize,
) -> Option<usize>
    requires numbered_fits { NumberedFits numbered.now arena.now }
    requires slot_lt_most_items { (slot < most_items) × (at ≤ longest_file) × (filter ≤ most_filter) }
    ensures { result ≡ measured (at + length (slot_item (numbered_bytes filter numbered.now arena.now depth) numbered.now arena.now slot at)) }
{
    let start = value_start(numbered, slot, at);
    if LONGEST_FILE < start {
        return None;
    }
    let kind = slot_word(numbered, slot, KIND);
    if kind == TABLE_KIND {
        let guest = slot_word(numbered, slot, VALUE);
        return measure_table(numbered, arena, guest, start, depth, filter);
    }
    let size = cover(numbered, slot, filter);
    if LONGEST_FILE - start < size {
        return None;
    }
    Some(start + size)
}
