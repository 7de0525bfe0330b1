// A walk through each file of data/: what its root table opens as, its keys and values as they list, and what lookups answer.
use crate::root::{BASE, MOST, Root};
use check_rules::checked::Checked;
use check_table::check::check_table;
use layout::pointer::Pointer;
use layout::refusal::{Refusal, bad_at, number_of};
use read::lookup::{lookup_table, lookup_value};
use read_listing::listing::{Cursor, Valued, WrittenKey};
use std::io;
use std::rt::Files;

// A refusal's number; with 8 and 9 where the text is bad.
fn refusal(rt: &impl Print, why: Refusal) -> io::Result<()> {
    let number = number_of(why);
    print!(rt; "{number}")?;
    if (number == 8) | (number == 9) {
        print!(rt; " at {}", bad_at(why))?;
    }
    Ok(())
}

// Lists the key at a position into a buffer of 64 bytes that held dots.
fn key(rt: &impl Print, root: Root<'_>, at: usize) -> io::Result<()> {
    let mut out = [b'.'; 64];
    print!(rt; "  key {at}: ")?;
    match (Cursor { at }).next_key(root.file, root.start, root.end, &mut out) {
        Ok(WrittenKey { size, next }) => {
            print!(rt; "\"")?;
            rt.write_all(out.get(..size).unwrap_or(&[]))?;
            print!(rt; "\", next {}", next.at)?;
        }
        Err(why) => refusal(rt, why)?,
    }
    if out[63] != b'.' {
        print!(rt; ", written to its end")?;
    }
    println!(rt;)
}

// The value at or after a position.
fn value(rt: &impl Print, root: Root<'_>, at: usize) -> io::Result<()> {
    print!(rt; "  value from {at}: ")?;
    match (Cursor { at }).next_value(root.file, root.start, root.end) {
        Valued::Value {
            index,
            start,
            end,
            next,
        } => {
            print!(rt; "item {index}")?;
            say::place(rt, start, end)?;
            print!(rt; ", next {}", next.at)?;
        }
        Valued::Unopened { why, index, next } => {
            let number = number_of(why);
            print!(rt; "{number} at item {index}, next {}", next.at)?;
        }
        Valued::Refused(why) => print!(rt; "{}", number_of(why))?,
    }
    println!(rt;)
}

// What a lookup answers.
pub fn looked(rt: &impl Print, answer: Result<Pointer, Refusal>) -> io::Result<()> {
    match answer {
        Ok(Pointer { start, end }) => say::place(rt, start, end),
        Err(why) => {
            print!(rt; " ")?;
            refusal(rt, why)
        }
    }
}

// A key looked up as a value and as a table.
fn lookup(rt: &impl Print, root: Root<'_>, key: &[u8]) -> io::Result<()> {
    let Root { file, start, end } = root;
    print!(rt; "  lookup of ")?;
    say::bytes(rt, key)?;
    print!(rt; "as a value:")?;
    looked(rt, lookup_value(file, start, end, key, BASE))?;
    print!(rt; "; as a table:")?;
    looked(rt, lookup_table(file, start, end, key, BASE))?;
    println!(rt;)
}

// What the check says of the root table.
fn check(rt: &impl Print, root: Root<'_>) -> io::Result<()> {
    print!(rt; "  check: ")?;
    match check_table(root.file, root.start, root.end, BASE) {
        Checked::Sound => print!(rt; "sound")?,
        Checked::Broken { rule, item } => print!(rt; "rule {rule} broken by item {item}")?,
        Checked::Unlisted { why, item } => {
            print!(rt; "rule 1 broken by item {item}: ")?;
            refusal(rt, why)?;
        }
        Checked::Refused(why) => print!(rt; "{}", number_of(why))?,
    }
    println!(rt;)
}

fn lookups(rt: &impl Print, root: Root<'_>) -> io::Result<()> {
    let keys: [&[u8]; 8] = [b"", b"a", b"b", b"a/", b"a/b", b"c/b", b"\xc3", b"caf\xe9"];
    for key in keys {
        lookup(rt, root, key)?;
    }
    Ok(())
}

// The keys of the nested tables made by hand, and those of the files that gvdb-rs laid.
fn names(rt: &impl Print, root: Root<'_>) -> io::Result<()> {
    for name in [
        "two",
        "three",
        "four",
        "five",
        "six",
        "seven",
        "root_key",
        "string",
        "table",
        "/gvdb/rs/test/online-symbolic.svg",
    ] {
        lookup(rt, root, name.as_bytes())?;
    }
    Ok(())
}

// Every position, and the one past the last item.
fn list(rt: &impl Print, root: Root<'_>, items: usize) -> io::Result<()> {
    for at in 0..=items {
        key(rt, root, at)?;
        value(rt, root, at)?;
    }
    Ok(())
}

// A file of data/, whose header names its root table.
fn file(rt: &(impl Files + Print), name: &str, named: bool) -> io::Result<()> {
    println!(rt; "{name}")?;
    let mut space = [0u8; MOST];
    let size = say::file::read(rt, name, &mut space)?;
    if let Some(root) = Root::of(&space[..size]) {
        let items = crate::open::table(rt, root.file, root.start, root.end)?;
        check(rt, root)?;
        list(rt, root, items)?;
        lookups(rt, root)?;
        if named {
            names(rt, root)?;
        }
    }
    Ok(())
}

// The files made by hand.
const MADE: [&str; 15] = [
    "one.gvdb",
    "two.gvdb",
    "own_parent.gvdb",
    "refusals.gvdb",
    "bloom.gvdb",
    "runs.gvdb",
    "beyond.gvdb",
    "no_buckets.gvdb",
    "nested.gvdb",
    "rule_1.gvdb",
    "rule_2.gvdb",
    "rule_3.gvdb",
    "rule_4.gvdb",
    "rule_5.gvdb",
    "rule_6.gvdb",
];

// The files that gvdb-rs laid.
const LAID: [&str; 4] = [
    "gvdbrs-test1.gvdb",
    "gvdbrs-test2.gvdb",
    "gvdbrs-test3.gresource",
    "gvdbrs-test4.gvdb",
];

pub fn files(rt: &(impl Files + Print)) -> io::Result<()> {
    for name in MADE {
        file(rt, name, name == "nested.gvdb")?;
    }
    for name in LAID {
        file(rt, name, true)?;
    }
    Ok(())
}
