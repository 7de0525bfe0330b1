// A table laid with all its chunks: laying a table and laying an item call each other, and the depth left falls.
ghost use Rattle.std.specs.Prelude.{◌+◌, ◌≤◌, ◌<◌, length};
ghost use Rattle.words.specs.Store.{put_at};
ghost use Rattle.image.specs.Laid.{Laid};
ghost use Rattle.layout.specs.Limits.{longest_file, most_tables, most_items, most_filter};
ghost use Rattle.layout.specs.Sizes.{record_size};
ghost use Rattle.write_parts.specs.Numbered.{numbered_bytes, NumberedFits};
ghost use Rattle.write_parts.specs.Slot.{slot_start, slot_record, slot_item};

use layout::kind::TABLE_KIND;
use layout::sizes::{BUCKET_SIZE, FILTER_SIZE, HEAD_SIZE, RECORD_SIZE};
use write_parts::numbered::{KIND, VALUE, first_slot, slot_count, slot_word};
use write_parts::put::{lay_front, lay_key, lay_plain, lay_record};
use write_parts::slot::value_start;

// gvdb-rs: add_simple_hash_table.
// Lays a table at `at`. Answers where it ends. At depth 0 nothing is laid.
#[cycle(lay_item_lay_table)]
pub fn lay_table(
    numbered: &[usize],
    arena: &[u8],
    image: &mut [u8],
    table: usize,
    at: usize,
    depth: usize,
    filter: usize,
) -> usize
    requires numbered_fits { NumberedFits numbered.now arena.now }
    requires table_lt_most_tables { (table < most_tables) × (filter ≤ most_filter) }
    requires at_in_bounds { (at + length (numbered_bytes filter numbered.now arena.now depth table at) ≤ length image.old) × (length image.old ≤ longest_file) }
    ensures { Laid image.old image.new at (numbered_bytes filter numbered.now arena.now depth table at) result }
{
    if depth == 0 {
        return at;
    }
    let first = first_slot(numbered, table);
    let count = slot_count(numbered, table);
    lay_front(numbered, image, first, count, at, filter);
    let records = at + HEAD_SIZE + FILTER_SIZE * filter + BUCKET_SIZE * count;
    let mut end = records + RECORD_SIZE * count;
    for k in 0..count {
        end = lay_item(
            numbered,
            arena,
            image,
            first + k,
            records + RECORD_SIZE * k,
            end,
            depth - 1,
            filter,
        );
    }
    end
}

// gvdb-rs: add_simple_hash_table, for one item; add_table_builder, for a nested table.
// Lays a slot's record at `to`, its fragment at `at`, and its value behind it. Answers where the value ends.
#[cycle(lay_item_lay_table)]
fn lay_item(
    numbered: &[usize],
    arena: &[u8],
    image: &mut [u8],
    slot: usize,
    to: usize,
    at: usize,
    depth: usize,
    filter: usize,
) -> usize
    requires numbered_fits { NumberedFits numbered.now arena.now }
    requires slot_lt_most_items { (slot < most_items) × (to + record_size ≤ at) × (filter ≤ most_filter) }
    requires at_in_bounds { (at + length (slot_item (numbered_bytes filter numbered.now arena.now depth) numbered.now arena.now slot at) ≤ length image.old) × (length image.old ≤ longest_file) }
    ensures { Laid (put_at image.old to (slot_record numbered.now filter slot at (slot_start numbered.now slot at))) image.new at (slot_item (numbered_bytes filter numbered.now arena.now depth) numbered.now arena.now slot at) result }
{
    let start = value_start(numbered, slot, at);
    lay_record(numbered, image, slot, to, at, start, filter);
    lay_key(numbered, arena, image, slot, at, start);
    let kind = slot_word(numbered, slot, KIND);
    if kind == TABLE_KIND {
        let guest = slot_word(numbered, slot, VALUE);
        return lay_table(numbered, arena, image, guest, start, depth, filter);
    }
    lay_plain(numbered, arena, image, slot, start)
}
