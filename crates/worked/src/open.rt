// Opening a pointer and a table, each refusal from both sides.
use layout::pointer::open_pointer;
use layout::refusal::number_of;
use layout::table::open_table;
use std::io;
use words::align::{Alignment, bytes_of};

fn pointer(
    rt: &impl Print,
    size: usize,
    start: usize,
    end: usize,
    alignment: Alignment,
) -> io::Result<()> {
    let to = bytes_of(alignment);
    print!(rt; "pointer {start} to {end} at {to} in {size}: ")?;
    match open_pointer(size, start, end, alignment) {
        Ok(()) => print!(rt; "inside")?,
        Err(why) => print!(rt; "{}", number_of(why))?,
    }
    println!(rt;)
}

// 2 for a start above the end, then 3, then 2 for an end past the file.
pub fn pointers(rt: &impl Print) -> io::Result<()> {
    pointer(rt, 16, 8, 16, Alignment::Value)?;
    pointer(rt, 16, 8, 17, Alignment::Value)?;
    pointer(rt, 16, 16, 16, Alignment::Value)?;
    pointer(rt, 16, 9, 8, Alignment::Value)?;
    pointer(rt, 16, 9, 9, Alignment::Value)?;
    pointer(rt, 16, 12, 20, Alignment::Value)?;
    pointer(rt, 16, 12, 20, Alignment::Table)?;
    pointer(rt, 16, 3, 4, Alignment::Key)
}

// What a table opens as; its item count, 0 where it does not open.
pub fn table(rt: &impl Print, file: &[u8], start: u32, end: u32) -> io::Result<usize> {
    print!(rt; "table {start} to {end} in {}: ", file.len())?;
    let items = match open_table(file, start, end) {
        Ok(table) => {
            print!(rt;
                "bloom words {}, buckets {}, items {}",
                table.blooms, table.buckets, table.count
            )?;
            table.count
        }
        Err(why) => {
            print!(rt; "{}", number_of(why))?;
            0
        }
    };
    println!(rt;)?;
    Ok(items)
}

// The pointer's errors, and 4.
fn without_counts(rt: &impl Print) -> io::Result<()> {
    let none = b"\x00\x00\x00\x28\x00\x00\x00\x00";
    table(rt, none, 0, 8)?;
    table(rt, none, 0, 7)?;
    table(rt, none, 0, 9)?;
    table(rt, none, 8, 0)?;
    table(rt, none, 2, 8)?;
    table(rt, none, 4, 8)?;
    table(rt, none, 8, 8)?;
    Ok(())
}

// 5, by the first word.
fn bloom_words(rt: &impl Print) -> io::Result<()> {
    let bloom = b"\x01\x00\x00\x28\x00\x00\x00\x00\xff\xff\xff\xff";
    table(rt, bloom, 0, 12)?;
    table(rt, bloom, 0, 11)?;
    let most = b"\xff\xff\xff\xff\xff\xff\xff\xff\x00\x00\x00\x00";
    table(rt, most, 0, 12)?;
    Ok(())
}

// 6 and 7, by the second word.
fn buckets_and_items(rt: &impl Print) -> io::Result<()> {
    let bucket = b"\x00\x00\x00\x00\x01\x00\x00\x00\x00\x00\x00\x00";
    table(rt, bucket, 0, 12)?;
    table(rt, bucket, 0, 11)?;
    let many = b"\x00\x00\x00\x00\xff\xff\xff\xff\x00\x00\x00\x00";
    table(rt, many, 0, 12)?;
    let one =
        b"\x00\x00\x00\x28\x01\x00\x00\x00\x00\x00\x00\x00\x06\xb6\x02\x00\xff\xff\xff\xff\x00\x00\x00\x00\x01\x00\x76\x00\x00\x00\x00\x00\x00\x00\x00\x00";
    table(rt, one, 0, 36)?;
    table(rt, one, 0, 35)?;
    table(rt, one, 0, 12)?;
    table(rt, one, 0, 13)?;
    Ok(())
}

// The pointer's errors, 4, then 5, 6 and 7 by the counts in the first two words.
pub fn tables(rt: &impl Print) -> io::Result<()> {
    without_counts(rt)?;
    bloom_words(rt)?;
    buckets_and_items(rt)
}
