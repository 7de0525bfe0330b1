// A walk over a list, record by record.
use crate::list::{KINDS, Kind, Record};
use crate::tally::Count;
use crate::{building, list, reading, tally};
use std::io;
use std::rt::Files;

// A file's bytes are the second string of its record, and an image is a file too.
fn latest<'a>(r: Record<'a>, file: &'a [u8]) -> &'a [u8] {
    match r.kind {
        Kind::File | Kind::Write => r.second,
        _ => file,
    }
}

// Whether the library answers as the record says; lookups and listings are of the latest file. A file is no question, and is never wrong.
fn ask(r: Record<'_>, file: &[u8], words: &mut [usize], arena: &mut [u8]) -> bool {
    match r.kind {
        Kind::File => true,
        Kind::Open => reading::open(file, r),
        Kind::Get => reading::get(file, r),
        Kind::GetTable => reading::get_table(file, r),
        Kind::NextKey => reading::next_key(file, r),
        Kind::NextValue => reading::next_value(file, r),
        Kind::Hash => reading::hash(r),
        Kind::FirstBad => reading::utf8(r),
        Kind::Fresh => building::fresh(r, words, arena),
        Kind::NewTable => building::new_table(r, words, arena),
        Kind::Insert => building::insert(r, words, arena),
        Kind::InsertTable => building::insert_table(r, words, arena),
        Kind::ItemCount => building::item_count(r, words, arena),
        Kind::Write => building::write(r, words, arena),
    }
}

// Answers where it stopped: at the list's end, or at the first record that is not whole.
fn walk(list: &[u8], words: &mut [usize], arena: &mut [u8], counts: &mut [Count; KINDS]) -> usize {
    let mut rest = list;
    let mut file = &list[..0];
    // A `while`, since what is left where no record stands is the answer: a `for` over an iterator of records would have to ask the iterator for it.
    while let Some((record, behind)) = list::split_record(rest) {
        let same = ask(record, file, words, arena);
        counts[record.kind as usize].add(same, list.len() - rest.len());
        file = latest(record, file);
        rest = behind;
    }
    list.len() - rest.len()
}

// Memory for a builder: whatever it holds, a fresh start makes it empty.
fn room_of_words() -> [usize; 14600] {
    [7usize; 14600]
}

fn room_of_list() -> [u8; 1048576] {
    [0u8; 1048576]
}

fn run(rt: &impl Print, list: &[u8]) -> io::Result<()> {
    let mut words = room_of_words();
    // Fixed memory: there is no heap.
    let mut arena = [0u8; 65536];
    let mut counts = [Count::default(); KINDS];
    let stopped = walk(list, &mut words, &mut arena, &mut counts);
    tally::report(rt, &counts)?;
    if stopped < list.len() {
        println!(rt; "bad list at {stopped}")?;
    }
    Ok(())
}

// A list of data/, of at most 1 MiB; of a longer one that much.
pub fn replay(rt: &(impl Files + Print), name: &str) -> io::Result<()> {
    let mut space = room_of_list();
    let size = say::file::read(rt, name, &mut space)?;
    println!(rt; "{name}, {size} bytes")?;
    run(rt, &space[..size])
}
