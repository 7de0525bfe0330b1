// Where a slot's value starts in the image, and how long it is.
ghost use Rattle.std.specs.Prelude.{◌≡◌, ◌≤◌, ◌<◌};
ghost use Rattle.words.specs.Align.{alignment_of};
ghost use Rattle.layout.specs.Limits.{longest_file, most_filter};
ghost use Rattle.write_parts.specs.Numbered.{slot_fragment_size, by_kind, slot_cover};
ghost use Rattle.write_parts.specs.Slot.{slot_start, SlotIn, CoverFits};

use crate::numbered::{FRAGMENT_SIZE, KIND, VALUE, VALUE_SIZE, slot_count, slot_word};
use layout::kind::{TABLE_KIND, VALUE_KIND};
use layout::sizes::{CHUNK_STEP, FILTER_SIZE, HEAD_SIZE};
use words::align::{Alignment, align_offset};

// How a value of this kind is aligned.
fn alignment_of(kind: usize) -> Alignment
    ensures { alignment_of result ≡ by_kind kind 8 4 4 }
{
    if kind == VALUE_KIND {
        return Alignment::Value;
    }
    Alignment::Table
}

// gvdb-rs: allocate_chunk_with_data, its alignment.
// Where a slot's value starts, if its key starts at `at`.
pub fn value_start(numbered: &[usize], slot: usize, at: usize) -> usize
    requires slot_in { SlotIn numbered.now slot }
    requires slot_bound { (slot_fragment_size numbered.now slot < 65536) × (at ≤ longest_file) }
    ensures { result ≡ slot_start numbered.now slot at }
{
    let size = slot_word(numbered, slot, FRAGMENT_SIZE);
    let kind = slot_word(numbered, slot, KIND);
    let alignment = alignment_of(kind);
    align_offset(at + size, alignment)
}

// gvdb-rs: Pointer::size.
// The length that a slot's value pointer covers, with so many filter words in every table: of a nested table its table chunk only.
pub fn cover(numbered: &[usize], slot: usize, filter: usize) -> usize
    requires slot_in { SlotIn numbered.now slot }
    requires cover_fits { CoverFits numbered.now slot }
    requires filter_le_most_filter { filter ≤ most_filter }
    ensures { result ≡ slot_cover filter numbered.now slot }
{
    let kind = slot_word(numbered, slot, KIND);
    let size = slot_word(numbered, slot, VALUE_SIZE);
    if kind == VALUE_KIND {
        return size;
    }
    if kind == TABLE_KIND {
        let guest = slot_word(numbered, slot, VALUE);
        return HEAD_SIZE + FILTER_SIZE * filter + CHUNK_STEP * slot_count(numbered, guest);
    }
    4 * size
}
