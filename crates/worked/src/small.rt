// P1 to P12, and the order of keys.
use key_hash::hash::djb_hash;
use key_order::keyorder::less;
use key_order::prefix::next_end;
use std::io;
use words::align::{Alignment, align_offset};
use words::bits::{bloom_count, bloom_shift};

fn hash(rt: &impl Print, key: &[u8]) -> io::Result<()> {
    print!(rt; "hash \"")?;
    rt.write_all(key)?;
    println!(rt; "\" {}", djb_hash(key))
}

// P1 to P5.
pub fn hashes(rt: &impl Print) -> io::Result<()> {
    let keys: [&[u8]; 6] = [b"", b"a", b"a/", b"a/b", b"a/bc", b"\xc3\xa9"];
    for key in keys {
        hash(rt, key)?;
    }
    Ok(())
}

fn align(rt: &impl Print, offset: u32) -> io::Result<()> {
    let at = offset as usize;
    let key = align_offset(at, Alignment::Key);
    let table = align_offset(at, Alignment::Table);
    let value = align_offset(at, Alignment::Value);
    println!(rt; "align {at} to 1, 4, 8: {key} {table} {value}")
}

// P6 to P8, and each remainder by 8.
pub fn alignments(rt: &impl Print) -> io::Result<()> {
    for offset in [60, 89, 64] {
        align(rt, offset)?;
    }
    for offset in 0..9 {
        align(rt, offset)?;
    }
    Ok(())
}

fn bloom(rt: &impl Print, first: u32) -> io::Result<()> {
    let count = bloom_count(first);
    let shift = bloom_shift(first);
    println!(rt; "first word {first}: bloom words {count}, shift {shift}")
}

// P9, and the edge between count and shift.
pub fn blooms(rt: &impl Print) -> io::Result<()> {
    for first in [0x2800_0000, 0x07FF_FFFF, 0x0800_0000, 0xFFFF_FFFF] {
        bloom(rt, first)?;
    }
    Ok(())
}

fn prefix(rt: &impl Print, part: &[u8]) -> io::Result<()> {
    print!(rt; " \"")?;
    rt.write_all(part)?;
    print!(rt; "\"")
}

fn walk(rt: &impl Print, key: &[u8], separator: usize) -> io::Result<()> {
    print!(rt; "prefixes of \"")?;
    rt.write_all(key)?;
    print!(rt; "\":")?;
    let mut end = 0;
    // A `loop`, since it goes on from where the last prefix ends, and shows one of the empty key too.
    loop {
        end = next_end(key, end, separator);
        prefix(rt, &key[..end])?;
        if key.len() <= end {
            return println!(rt;);
        }
    }
}

// P10 to P12, the empty key, and a table without separator.
pub fn prefixes(rt: &impl Print) -> io::Result<()> {
    walk(rt, b"/a//b", 47)?;
    walk(rt, b"a/", 47)?;
    walk(rt, b"/", 47)?;
    walk(rt, b"", 47)?;
    walk(rt, b"/a//b", 256)
}

fn order(rt: &impl Print, a: &[u8], b: &[u8]) -> io::Result<()> {
    print!(rt; "\"")?;
    rt.write_all(a)?;
    print!(rt; "\" before \"")?;
    rt.write_all(b)?;
    print!(rt; "\": ")?;
    say::yes_no(rt, less(a, b))?;
    println!(rt;)
}

pub fn orders(rt: &impl Print) -> io::Result<()> {
    order(rt, b"", b"a")?;
    order(rt, b"a", b"")?;
    order(rt, b"a", b"a")?;
    order(rt, b"a", b"a/")?;
    order(rt, b"a/", b"a")?;
    order(rt, b"ab", b"b")?;
    order(rt, b"Z", b"a")
}
