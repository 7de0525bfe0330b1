// Images with filter words, byte by byte; a filter that lacks a bit, by both lookups; the limit on the words, and where its refusal stands.
use crate::laid;
use gvdb::building::{gvdb_insert_table, gvdb_new_table};
use gvdb::checking::gvdb_check;
use gvdb::reading::gvdb_get;
use gvdb::writing::gvdb_write;
use std::io;

fn filter_words(rt: &impl Print, count: u32) -> io::Result<()> {
    print!(rt; "filter words {count}, ")
}

// Writes a table with so many filter words into a buffer that held dots; what stands in it afterwards.
fn image(rt: &impl Print, words: &mut [usize], arena: &[u8], filter: u32) -> io::Result<()> {
    let mut buffer = [b'.'; 120];
    let written = gvdb_write(words, arena, 0, &mut buffer, 0, filter);
    filter_words(rt, filter)?;
    laid::said(rt, 120, written)?;
    say::bytes(rt, &buffer)?;
    println!(rt;)
}

// No items and one word: 36 bytes.
fn empty(rt: &impl Print) -> io::Result<()> {
    let mut words = laid::room_of_words();
    let mut arena = laid::room_of_bytes();
    laid::start(&mut words, &mut arena, b"");
    image(rt, &mut words, &arena, 1)
}

// The words of a filter of 1,024 that are not zero; it lies from 32 to 4128, in a table at 24.
fn some_words(rt: &impl Print, image: &[u8]) -> io::Result<()> {
    let (words, _) = image.get(32..4128).unwrap_or(&[]).as_chunks::<4>();
    for (at, word) in words.iter().enumerate() {
        let word = u32::from_le_bytes(*word);
        if word != 0 {
            println!(rt; "filter word {at}: {word}")?;
        }
    }
    Ok(())
}

// With 1,024 words: 4,162 bytes, their head, the words that are not zero, and what stands behind them.
fn full(rt: &impl Print, words: &mut [usize], arena: &[u8]) -> io::Result<()> {
    let mut buffer = [b'.'; 4162];
    let written = gvdb_write(words, arena, 0, &mut buffer, 0, 1024);
    filter_words(rt, 1024)?;
    laid::said(rt, 4162, written)?;
    say::bytes(rt, view_part::part::stretch(&buffer, 24, 32))?;
    println!(rt;)?;
    some_words(rt, &buffer)?;
    say::bytes(rt, view_part::part::stretch(&buffer, 4128, 4162))?;
    println!(rt;)
}

// With one word into 73 bytes and into 74: the image's length counts the filter.
fn tight(rt: &impl Print, words: &mut [usize], arena: &[u8]) -> io::Result<()> {
    let mut short = [b'.'; 73];
    let written = gvdb_write(words, arena, 0, &mut short, 0, 1);
    filter_words(rt, 1)?;
    laid::said(rt, 73, written)?;
    let mut long = [b'.'; 74];
    let written = gvdb_write(words, arena, 0, &mut long, 0, 1);
    filter_words(rt, 1)?;
    laid::said(rt, 74, written)
}

// "a" with 01 02: 66 bytes without a filter, 74 with one word and with two, 4,162 with 1,024.
fn one(rt: &impl Print) -> io::Result<()> {
    let mut words = laid::room_of_words();
    let mut arena = laid::room_of_bytes();
    laid::start(&mut words, &mut arena, b"");
    laid::insert(rt, &mut words, &mut arena, 0, b"a", b"\x01\x02")?;
    image(rt, &mut words, &arena, 0)?;
    image(rt, &mut words, &arena, 1)?;
    image(rt, &mut words, &arena, 2)?;
    image(rt, &mut words, &arena, 1024)?;
    full(rt, &mut words, &arena)?;
    tight(rt, &mut words, &arena)
}

// "a/b" with 07: 104 bytes with one word, 112 with three.
fn two(rt: &impl Print) -> io::Result<()> {
    let mut words = laid::room_of_words();
    let mut arena = laid::room_of_bytes();
    laid::start(&mut words, &mut arena, b"/");
    laid::insert(rt, &mut words, &mut arena, 0, b"a/b", b"\x07")?;
    image(rt, &mut words, &arena, 1)?;
    image(rt, &mut words, &arena, 3)
}

// A table with "x" 09, held by table 0 under "t".
fn hold(rt: &impl Print, words: &mut [usize], arena: &mut [u8]) -> io::Result<()> {
    gvdb_new_table(words, arena, b"");
    laid::insert(rt, words, arena, 1, b"x", b"\x09")?;
    let held = gvdb_insert_table(words, arena, 0, b"t", 1);
    laid::told(rt, b"t", held.number)
}

// "t" that holds a table with "x" 09, and one word: 113 bytes, and the nested table has a filter too.
fn nested(rt: &impl Print) -> io::Result<()> {
    let mut words = laid::room_of_words();
    let mut arena = laid::room_of_bytes();
    laid::start(&mut words, &mut arena, b"");
    hold(rt, &mut words, &mut arena)?;
    image(rt, &mut words, &arena, 1)
}

// What the check and a lookup of "a" say in a manner: 0 is the Rust's lookup, 2 the strict one.
fn judged(rt: &impl Print, image: &[u8], manner: u32) -> io::Result<()> {
    let checked = gvdb_check(image, 24, 64, manner);
    print!(rt; "  manner {manner}: check {}", checked.number)?;
    if checked.number == 40 {
        print!(rt; ", rule {}, item {}", checked.rule, checked.item)?;
    }
    let found = gvdb_get(image, 24, 64, b"a", manner);
    print!(rt; "; \"a\" {}", found.number)?;
    say::place(rt, found.start, found.end)?;
    println!(rt;)
}

fn both(rt: &impl Print, name: &str, image: &[u8]) -> io::Result<()> {
    println!(rt; "{name}")?;
    judged(rt, image, 0)?;
    judged(rt, image, 2)
}

// "a" with one word: as it is laid, with the filter's second bit cleared, and then with a shift of 0 in the first word too.
fn cleared(rt: &impl Print) -> io::Result<()> {
    let mut words = laid::room_of_words();
    let mut arena = laid::room_of_bytes();
    let mut buffer = [0u8; 74];
    laid::start(&mut words, &mut arena, b"");
    laid::insert(rt, &mut words, &mut arena, 0, b"a", b"\x01\x02")?;
    gvdb_write(&mut words, &arena, 0, &mut buffer, 0, 1);
    both(rt, "both bits of the filter", &buffer)?;
    buffer[34] = 0;
    both(rt, "the first bit alone", &buffer)?;
    buffer[27] = 0;
    both(rt, "the first bit alone, shift 0", &buffer)
}

// What a write of a table answers.
fn answer(
    rt: &impl Print,
    words: &mut [usize],
    arena: &[u8],
    table: u32,
    filter: u32,
) -> io::Result<()> {
    let mut buffer = [0u8; 4200];
    let written = gvdb_write(words, arena, table, &mut buffer, 0, filter);
    print!(rt; "table {table}, ")?;
    filter_words(rt, filter)?;
    laid::said(rt, 4200, written)
}

// 0, 1, 1,024 and 1,025 words (33); 33 stands behind an unknown table (24) and before an empty key (30).
fn limits(rt: &impl Print) -> io::Result<()> {
    let mut words = laid::room_of_words();
    let mut arena = laid::room_of_bytes();
    laid::start(&mut words, &mut arena, b"");
    laid::insert(rt, &mut words, &mut arena, 0, b"a", b"\x01\x02")?;
    answer(rt, &mut words, &arena, 0, 0)?;
    answer(rt, &mut words, &arena, 0, 1)?;
    answer(rt, &mut words, &arena, 0, 1024)?;
    answer(rt, &mut words, &arena, 0, 1025)?;
    answer(rt, &mut words, &arena, 1, 1025)?;
    laid::insert(rt, &mut words, &mut arena, 0, b"", b"")?;
    answer(rt, &mut words, &arena, 0, 1024)?;
    answer(rt, &mut words, &arena, 0, 1025)
}

pub fn tables(rt: &impl Print) -> io::Result<()> {
    empty(rt)?;
    one(rt)?;
    two(rt)?;
    nested(rt)?;
    cleared(rt)?;
    limits(rt)
}
