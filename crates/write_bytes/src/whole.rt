// A whole image: zeros for the header, then the root table.
ghost use Rattle.std.specs.Prelude.{◌≡◌, ◌≤◌, ◌<◌, length};
ghost use Rattle.words.specs.Store.{put_at};
ghost use Rattle.layout.specs.Limits.{longest_file, most_tables, most_filter};
ghost use Rattle.write_parts.specs.Numbered.{numbered_image, NumberedFits};
ghost use Rattle.write_bytes.specs.Measure.{measured};

use crate::measure::measure_table;
use crate::table::lay_table;
use layout::limits::DEEPEST;
use layout::sizes::HEADER_SIZE;
use words::store::fill;

// gvdb-rs: file_size.
// Measures the image of a table, with so many filter words in every table of it.
pub fn measure(numbered: &[usize], arena: &[u8], table: usize, filter: usize) -> Option<usize>
    requires numbered_fits { NumberedFits numbered.now arena.now }
    requires table_lt_most_tables { (table < most_tables) × (filter ≤ most_filter) }
    ensures { result ≡ measured (length (numbered_image filter numbered.now arena.now table)) }
{
    measure_table(numbered, arena, table, HEADER_SIZE, DEEPEST, filter)
}

// gvdb-rs: serialize, and allocate_empty_chunk for the header.
// Lays the image of a table at the front of a buffer that has room for it, with so many filter words in every table of it.
pub fn lay_image(numbered: &[usize], arena: &[u8], table: usize, image: &mut [u8], filter: usize)
    requires numbered_fits { NumberedFits numbered.now arena.now }
    requires table_lt_most_tables { (table < most_tables) × (filter ≤ most_filter) }
    requires table_in_bounds { (length (numbered_image filter numbered.now arena.now table) ≤ length image.old) × (length image.old ≤ longest_file) }
    ensures { image.new ≡ put_at image.old 0 (numbered_image filter numbered.now arena.now table) }
{
    fill(image, 0, HEADER_SIZE, 0);
    lay_table(numbered, arena, image, table, HEADER_SIZE, DEEPEST, filter);
}
