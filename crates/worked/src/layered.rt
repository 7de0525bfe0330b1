// A file of data/ over another: which of the two tables answers a key, what it answers, and the value's bytes as a view shows them.
use crate::root::{BASE, HEADER, MOST, Root};
use read::layered::{Source, lookup_layered};
use std::io;
use std::rt::Files;
use view_layered::layered::layered_bytes;
use view_part::part::stretch;

fn source(rt: &impl Print, from: Source) -> io::Result<()> {
    match from {
        Source::Owner => print!(rt; "the owner's:"),
        Source::District => print!(rt; "the district's:"),
    }
}

// A key looked up in the owner's table, and in the district's under it.
fn lookup(rt: &impl Print, owner: Root<'_>, district: Root<'_>, key: &[u8]) -> io::Result<()> {
    let Root {
        file: own,
        start: ostart,
        end: oend,
    } = owner;
    let Root {
        file: under,
        start: dstart,
        end: dend,
    } = district;
    let layered = lookup_layered(own, ostart, oend, under, dstart, dend, key, BASE, BASE);
    let seen = layered_bytes(own, ostart, oend, under, dstart, dend, key, BASE, BASE);
    print!(rt; "  lookup of ")?;
    say::bytes(rt, key)?;
    print!(rt; "in ")?;
    source(rt, layered.from)?;
    crate::tour::looked(rt, layered.looked)?;
    print!(rt; "; view ")?;
    say::bytes(rt, seen)?;
    println!(rt;)
}

fn lookups(rt: &impl Print, owner: Root<'_>, district: Root<'_>) -> io::Result<()> {
    let keys: [&[u8]; 5] = [b"a", b"a/", b"a/b", b"b", b"\xc3"];
    for key in keys {
        lookup(rt, owner, district, key)?;
    }
    Ok(())
}

// A file over another, and over no more than the other's header, whose pointer then leads outside.
fn over(rt: &impl Print, name: &str, owner: &[u8], other: &str, district: &[u8]) -> io::Result<()> {
    let (Some(own), Some(under)) = (Root::of(owner), Root::of(district)) else {
        return Ok(());
    };
    println!(rt; "{name} over {other}")?;
    lookups(rt, own, under)?;
    println!(rt; "{name} over the header of {other}")?;
    let file = stretch(district, 0, HEADER);
    lookups(rt, own, Root { file, ..under })
}

// Two files of data/.
fn pair(rt: &(impl Files + Print), name: &str, other: &str) -> io::Result<()> {
    let mut above = [0u8; MOST];
    let mut below = [0u8; MOST];
    let size = say::file::read(rt, name, &mut above)?;
    let rest = say::file::read(rt, other, &mut below)?;
    over(rt, name, &above[..size], other, &below[..rest])
}

pub fn files(rt: &(impl Files + Print)) -> io::Result<()> {
    pair(rt, "one.gvdb", "two.gvdb")?;
    pair(rt, "two.gvdb", "one.gvdb")?;
    pair(rt, "nested.gvdb", "one.gvdb")
}
