// Values as views show them: the bytes themselves, looked up through a view of the file, and none on a refusal.
use crate::root::{BASE, MOST, Root};
use std::io;
use std::rt::Files;
use view_through::through::{nested_bytes, value_bytes};

// The value of a key.
fn value(rt: &impl Print, root: Root<'_>, key: &[u8]) -> io::Result<()> {
    print!(rt; "  view of ")?;
    rt.write_all(key)?;
    print!(rt; ": ")?;
    say::bytes(rt, value_bytes(root.file, root.start, root.end, key, BASE))?;
    println!(rt;)
}

// The value of a key in a nested table.
fn nested(rt: &impl Print, root: Root<'_>, table: &[u8], key: &[u8]) -> io::Result<()> {
    print!(rt; "  view of ")?;
    rt.write_all(key)?;
    print!(rt; " in ")?;
    rt.write_all(table)?;
    print!(rt; ": ")?;
    say::bytes(
        rt,
        nested_bytes(root.file, root.start, root.end, table, key, BASE),
    )?;
    println!(rt;)
}

// A file of data/, whose header names its root table: a key, and one in a nested table.
fn file(
    rt: &(impl Files + Print),
    name: &str,
    key: &[u8],
    table: &[u8],
    inner: &[u8],
) -> io::Result<()> {
    println!(rt; "{name}")?;
    let mut space = [0u8; MOST];
    let size = say::file::read(rt, name, &mut space)?;
    if let Some(root) = Root::of(&space[..size]) {
        value(rt, root, key)?;
        nested(rt, root, table, inner)?;
    }
    Ok(())
}

pub fn files(rt: &(impl Files + Print)) -> io::Result<()> {
    file(rt, "two.gvdb", b"a/b", b"a/", b"b")?;
    file(rt, "nested.gvdb", b"v", b"a", b"a")?;
    file(rt, "nested.gvdb", b"a", b"two", b"a")?;
    file(rt, "no_buckets.gvdb", b"a", b"a", b"a")?;
    file(rt, "gvdbrs-test1.gvdb", b"root_key", b"root_key", b"a")?;
    file(rt, "gvdbrs-test2.gvdb", b"string", b"table", b"int")
}
