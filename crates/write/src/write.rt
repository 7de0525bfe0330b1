// A write: the judgement of the memory, the table, the number of filter words, empty keys, the image's length; then the image.
ghost use Rattle.std.specs.Prelude.{◌≡◌, true, ◌<◌, ◌≤◌, length};
ghost use Rattle.key_hash.specs.Hash.{rule_of};
ghost use Rattle.words.specs.Store.{put_at};
ghost use Rattle.layout.specs.Limits.{most_tables, most_filter, longest_file};
ghost use Rattle.build_rules.specs.Valid.{fully_valid};
ghost use Rattle.write_parts.specs.Numbered.{numbered_image, NumberedFits};
ghost use Rattle.write_numbers.specs.Roster.{Rostered};
ghost use Rattle.write.specs.Write.{image_for, write_answer, laid_by, image_after};
ghost use Rattle.write.specs.Answer.{fit_answer, table_answer};

use crate::Image;
use crate::empty::has_empty;
use build_rules::judge::judge_fully;
use build_tables::add::is_free_standing;
use key_hash::hash::Form;
use layout::limits::{DEEPEST, MOST_FILTER};
use layout::refusal::Refusal;
use layout::sizes::{CHUNK_STEP, FILTER_SIZE, HEAD_SIZE, HEADER_SIZE};
use write_bytes::whole::{lay_image, measure};
use write_numbers::fill::roster_all;
use write_numbers::roster::ROSTER_SIZE;
use write_parts::numbered::{NUMBERED_SIZE, slot_count};
use write_slots::numbered::fill_numbered;

// gvdb-rs: serialize_to_vec.
// Lays the image of a table into the front of a buffer that is long enough.
fn lay_into(
    numbered: &[usize],
    arena: &[u8],
    table: usize,
    image: &mut [u8],
    size: usize,
    filter: usize,
)
    requires numbered_fits { NumberedFits numbered.now arena.now }
    requires table_lt_most_tables { (table < most_tables) × (filter ≤ most_filter) × (size ≡ length (numbered_image filter numbered.now arena.now table)) }
    requires size_in_bounds { (size ≤ length image.old) × (size ≤ longest_file) }
    ensures { image.new ≡ put_at image.old 0 (numbered_image filter numbered.now arena.now table) }
{
    lay_image(numbered, arena, table, &mut image[..size], filter);
}

// Lays a table, given by its number in a numbered table, unless its image is too long (31).
fn write_if_fits(
    numbered: &[usize],
    arena: &[u8],
    table: usize,
    image: &mut [u8],
    filter: usize,
) -> Result<Image, Refusal>
    requires numbered_fits { NumberedFits numbered.now arena.now }
    requires table_lt_most_tables { (table < most_tables) × (filter ≤ most_filter) }
    ensures value { result ≡ fit_answer filter numbered.now arena.now table (length image.old) }
    ensures image_after { image.new ≡ laid_by (fit_answer filter numbered.now arena.now table (length image.old)) (numbered_image filter numbered.now arena.now table) image.old }
{
    let Some(size) = measure(numbered, arena, table, filter) else {
        return Err(Refusal::ImageTooLong);
    };
    if image.len() < size {
        return Err(Refusal::ImageTooLong);
    }
    lay_into(numbered, arena, table, image, size, filter);
    let chunk = HEAD_SIZE + FILTER_SIZE * filter + CHUNK_STEP * slot_count(numbered, table);
    let end = HEADER_SIZE + chunk;
    Ok(Image {
        start: HEADER_SIZE as u32,
        end: end as u32,
        length: size as u32,
    })
}

// Lays a table by its roster, unless a key in it or in those nested in it is empty (30).
fn write_unless_empty(
    words: &[usize],
    arena: &[u8],
    roster: &[usize],
    table: usize,
    image: &mut [u8],
    form: Form,
    filter: usize,
) -> Result<Image, Refusal>
    requires arena_value { fully_valid words.now arena.now ≡ true }
    requires rostered { Rostered (rule_of form) words.now arena.now roster.now }
    requires table_lt_most_tables { (table < most_tables) × (filter ≤ most_filter) }
    ensures value { result ≡ table_answer (rule_of form) filter words.now arena.now table (length image.old) }
    ensures image_after { image.new ≡ laid_by (table_answer (rule_of form) filter words.now arena.now table (length image.old)) (image_for (rule_of form) filter words.now arena.now table) image.old }
{
    if has_empty(words, arena, roster, table, DEEPEST, form) {
        return Err(Refusal::EmptyKey);
    }
    // Fixed memory for the fullest builder: there is no heap.
    let mut numbered = [0usize; NUMBERED_SIZE];
    fill_numbered(words, arena, roster, &mut numbered, form);
    write_if_fits(&numbered, arena, table, image, filter)
}

// gvdb-rs: add_table_builder.
// Lays a free-standing table: indexes the items of all tables first.
fn index_and_write(
    words: &mut [usize],
    arena: &[u8],
    table: usize,
    image: &mut [u8],
    form: Form,
    filter: usize,
) -> Result<Image, Refusal>
    requires arena_value { fully_valid words.old arena.now ≡ true }
    requires table_lt_most_tables { (table < most_tables) × (filter ≤ most_filter) }
    ensures words_unchanged { words.new ≡ words.old }
    ensures value { result ≡ table_answer (rule_of form) filter words.old arena.now table (length image.old) }
    ensures image_after { image.new ≡ laid_by (table_answer (rule_of form) filter words.old arena.now table (length image.old)) (image_for (rule_of form) filter words.old arena.now table) image.old }
{
    // Fixed memory for the fullest builder: there is no heap.
    let mut roster = [0usize; ROSTER_SIZE];
    roster_all(words, arena, &mut roster, form);
    write_unless_empty(words, arena, &roster, table, image, form, filter)
}

// gvdb-rs: write_with_table, write_to_vec_with_table.
// Writes the image of a table, with hashes under a form and so many filter words in every table of it. The builder stays as it was: the links among its words are empty again.
pub fn write(
    words: &mut [usize],
    arena: &[u8],
    table: u32,
    image: &mut [u8],
    form: Form,
    filter: u32,
) -> Result<Image, Refusal>
    ensures words_unchanged { words.new ≡ words.old }
    ensures value { result ≡ write_answer (rule_of form) filter words.old arena.now table (length image.old) }
    ensures image_after { image.new ≡ image_after (rule_of form) filter words.old arena.now table image.old }
{
    if !judge_fully(words, arena) {
        return Err(Refusal::MemoryBroken);
    }
    let known = table as usize;
    if !is_free_standing(words, arena, known) {
        return Err(Refusal::TableUnknown);
    }
    let count = filter as usize;
    if MOST_FILTER < count {
        return Err(Refusal::TooManyFilterWords);
    }
    index_and_write(words, arena, known, image, form, count)
}
