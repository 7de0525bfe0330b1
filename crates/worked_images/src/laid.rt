// Images as the code lays them, byte by byte, and the builder's limits from both sides.
use answers_build::writing::GvdbImage;
use gvdb::building::{gvdb_fresh, gvdb_insert, gvdb_insert_table, gvdb_item_count, gvdb_new_table};
use gvdb::reading::gvdb_next_child;
use gvdb::writing::gvdb_write;
use std::io;

// Memory for a builder: whatever it holds, a fresh start makes it empty.
pub fn room_of_words() -> [usize; 14600] {
    [7usize; 14600]
}

pub fn room_of_bytes() -> [u8; 8192] {
    [7u8; 8192]
}

// An answer's number behind a name.
pub fn told(rt: &impl Print, name: &[u8], number: u32) -> io::Result<()> {
    rt.write_all(name)?;
    println!(rt; " {number}")
}

pub fn insert(
    rt: &impl Print,
    words: &mut [usize],
    arena: &mut [u8],
    table: u32,
    key: &[u8],
    value: &[u8],
) -> io::Result<()> {
    let inserted = gvdb_insert(words, arena, table, key, value);
    told(rt, key, inserted.number)
}

pub fn said(rt: &impl Print, room: usize, written: GvdbImage) -> io::Result<()> {
    let number = written.number;
    let length = written.length;
    print!(rt; "write into {room}: {number}, root")?;
    say::place(rt, written.start, written.end)?;
    println!(rt; ", length {length}")
}

// Writes a table into so many bytes of a buffer, in a manner.
fn write(
    rt: &impl Print,
    words: &mut [usize],
    arena: &[u8],
    buffer: &mut [u8],
    room: usize,
    manner: u32,
) -> io::Result<()> {
    if room <= buffer.len() {
        let written = gvdb_write(words, arena, 0, &mut buffer[..room], manner, 0);
        said(rt, room, written)?;
    }
    Ok(())
}

// The buffer held dots; what stands in it afterwards.
fn image(
    rt: &impl Print,
    words: &mut [usize],
    arena: &[u8],
    room: usize,
    manner: u32,
) -> io::Result<()> {
    let mut buffer = [b'.'; 112];
    write(rt, words, arena, &mut buffer, room, manner)?;
    say::bytes(rt, &buffer)?;
    println!(rt;)
}

// A fresh start, and a table.
pub fn start(words: &mut [usize], arena: &mut [u8], separator: &[u8]) {
    gvdb_fresh(words, arena);
    gvdb_new_table(words, arena, separator);
}

// The empty table: 32 bytes.
fn empty(rt: &impl Print) -> io::Result<()> {
    let mut words = room_of_words();
    let mut arena = room_of_bytes();
    start(&mut words, &mut arena, b"");
    image(rt, &mut words, &arena, 112, 0)
}

// "a" with 01 02: 66 bytes, and a buffer of 65.
fn one(rt: &impl Print) -> io::Result<()> {
    let mut words = room_of_words();
    let mut arena = room_of_bytes();
    start(&mut words, &mut arena, b"");
    insert(rt, &mut words, &mut arena, 0, b"a", b"\x01\x02")?;
    image(rt, &mut words, &arena, 65, 0)?;
    image(rt, &mut words, &arena, 66, 0)?;
    image(rt, &mut words, &arena, 112, 0)
}

// "a/b" with 07: 104 bytes, and a buffer of 103.
fn two(rt: &impl Print) -> io::Result<()> {
    let mut words = room_of_words();
    let mut arena = room_of_bytes();
    start(&mut words, &mut arena, b"/");
    insert(rt, &mut words, &mut arena, 0, b"a/b", b"\x07")?;
    image(rt, &mut words, &arena, 103, 0)?;
    image(rt, &mut words, &arena, 104, 0)?;
    image(rt, &mut words, &arena, 112, 0)
}

// "é" with 01 02: 66 bytes, which differ in the hash at 36 alone between the base form and the signed one.
fn accent(rt: &impl Print) -> io::Result<()> {
    let mut words = room_of_words();
    let mut arena = room_of_bytes();
    start(&mut words, &mut arena, b"");
    insert(rt, &mut words, &mut arena, 0, b"\xC3\xA9", b"\x01\x02")?;
    image(rt, &mut words, &arena, 66, 0)?;
    image(rt, &mut words, &arena, 66, 1)
}

// The child at a position of the container "a/".
fn child(rt: &impl Print, image: &[u8], start: u32, end: u32, position: usize) -> io::Result<()> {
    let child = gvdb_next_child(image, start, end, b"a/", position, 0);
    print!(rt; "child {position} of \"a/\": ")?;
    if child.number == 0 {
        print!(rt; "item {}, kind {}, \"", child.index, child.kind)?;
        rt.write_all(view_part::part::stretch(image, child.start, child.end))?;
        print!(rt; "\", next {}", child.next)?;
    } else {
        print!(rt; "{}", child.number)?;
    }
    println!(rt;)
}

// "a/c", then "a/b": children are listed in order of arrival.
fn children(rt: &impl Print) -> io::Result<()> {
    let mut words = room_of_words();
    let mut arena = room_of_bytes();
    let mut buffer = [0u8; 160];
    start(&mut words, &mut arena, b"/");
    insert(rt, &mut words, &mut arena, 0, b"a/c", b"")?;
    insert(rt, &mut words, &mut arena, 0, b"a/b", b"")?;
    let written = gvdb_write(&mut words, &arena, 0, &mut buffer, 0, 0);
    said(rt, 160, written)?;
    child(rt, &buffer, written.start, written.end, 0)?;
    child(rt, &buffer, written.start, written.end, 1)?;
    child(rt, &buffer, written.start, written.end, 2)
}

// A key of so many bytes.
fn long_key(
    rt: &impl Print,
    words: &mut [usize],
    arena: &mut [u8],
    key: &[u8],
    size: usize,
) -> io::Result<()> {
    if size <= key.len() {
        let inserted = gvdb_insert(words, arena, 0, &key[..size], b"");
        told(rt, b"a long key", inserted.number)?;
    }
    Ok(())
}

// Keys of 1,024 and 1,025 bytes.
fn keys(rt: &impl Print) -> io::Result<()> {
    let mut words = room_of_words();
    let mut arena = room_of_bytes();
    let key = [b'k'; 1025];
    start(&mut words, &mut arena, b"");
    long_key(rt, &mut words, &mut arena, &key, 1024)?;
    long_key(rt, &mut words, &mut arena, &key, 1025)
}

// Inserts a key of two bytes.
fn pair(words: &mut [usize], arena: &mut [u8], first: u8, second: u8) {
    let key = [first, second];
    gvdb_insert(words, arena, 0, &key, b"");
}

// Inserts 128 keys that start with a byte.
fn fill(words: &mut [usize], arena: &mut [u8], first: u8) {
    for second in 0..128 {
        pair(words, arena, first, second);
    }
}

fn count(rt: &impl Print, words: &[usize], arena: &[u8]) -> io::Result<()> {
    let counted = gvdb_item_count(words, arena, 0);
    told(rt, b"items", counted.count)
}

// 1,024 and 1,025 items.
fn items(rt: &impl Print) -> io::Result<()> {
    let mut words = room_of_words();
    let mut arena = room_of_bytes();
    start(&mut words, &mut arena, b"");
    for first in 0..8 {
        fill(&mut words, &mut arena, first);
    }
    count(rt, &words, &arena)?;
    insert(rt, &mut words, &mut arena, 0, b"one more", b"")?;
    count(rt, &words, &arena)
}

// A table that holds the one before it.
fn nest(
    rt: &impl Print,
    words: &mut [usize],
    arena: &mut [u8],
    host: u32,
    guest: u32,
) -> io::Result<()> {
    gvdb_new_table(words, arena, b"");
    let inserted = gvdb_insert_table(words, arena, host, b"n", guest);
    told(rt, b"nested", inserted.number)
}

// Each of nine tables in the next: the eighth holds seven, and the ninth would hold eight.
fn nests(rt: &impl Print) -> io::Result<()> {
    let mut words = room_of_words();
    let mut arena = room_of_bytes();
    start(&mut words, &mut arena, b"");
    for guest in 0..8 {
        nest(rt, &mut words, &mut arena, guest + 1, guest)?;
    }
    Ok(())
}

pub fn tables(rt: &impl Print) -> io::Result<()> {
    empty(rt)?;
    one(rt)?;
    two(rt)?;
    accent(rt)?;
    children(rt)?;
    keys(rt)?;
    items(rt)?;
    nests(rt)
}
