// Listing keys and values: a cursor by value that comes back moved on.
ghost use Rattle.std.specs.Prelude.{◌≡◌, ◌≤◌, ◌<◌, length, Ok};
ghost use Rattle.layout.specs.Table.{InFile};
ghost use Rattle.read_chain.specs.Chain.{key_of};
ghost use Rattle.read_listing.specs.Listing.{measure, written, listed, key_in, key_at, next_value, value_from, value_at};

use layout::item::{item_at, open_value};
use layout::kind::VALUE_BYTE;
use layout::refusal::Refusal;
use layout::table::{Table, open_table};
use read_chain::chain::{climb, parent_of};
use words::align::Alignment;
use words::store::put;

// gvdb-rs: Keys, Values; keys and values start with a cursor at 0.
// A position in a table's items.
#[derive(Clone, Copy)]
pub struct Cursor {
    pub at: usize,
}

// A key that was written: its length and the next position.
#[derive(Clone, Copy)]
pub struct WrittenKey {
    pub size: usize,
    pub next: Cursor,
}

// A value: its item's index, its pointer, and the next position. Where the pointer is refused, the index and the next position are told all the same.
// No `Result`: it has three answers, since a refused pointer comes with more than a refusal.
#[derive(Clone, Copy)]
pub enum Valued {
    Value {
        index: usize,
        start: u32,
        end: u32,
        next: Cursor,
    },
    Unopened {
        why: Refusal,
        index: usize,
        next: Cursor,
    },
    Refused(Refusal),
}

// The length of the key of the item at an index.
#[tactic(auto, using(crate::proofs::MeasureLaws::measure_over, crate::proofs::MeasureLaws::measure_root))]
pub fn key_size(file: &[u8], table: Table, index: usize) -> Result<usize, Refusal>
    requires { InFile file.now table × (index < table.count) }
    ensures { result ≡ measure (key_of file.now table table.count index) }
{
    let mut at = index;
    let mut total: usize = 0;
    for _ in 0..table.count {
        let item = item_at(file, table, at);
        total += item.size as usize;
        let Some(parent) = climb(file, table.count, item)? else {
            return Ok(total);
        };
        at = parent;
    }
    Err(Refusal::ParentsEndless)
}

// Writes the key of the item at an index, whose length is known, to the front of `out`, from its last fragment to its first.
#[tactic(auto, using(crate::proofs::WriteLaws::write_room, crate::proofs::WriteLaws::write_root, crate::proofs::WriteLaws::write_over))]
fn write_key(file: &[u8], table: Table, index: usize, size: usize, out: &mut [u8])
    requires in_file { InFile file.now table × (index < table.count) }
    requires index_value { (measure (key_of file.now table table.count index) ≡ Ok size) × (size ≤ length out.old) }
    ensures { out.new ≡ written (key_of file.now table table.count index) out.old }
{
    let mut at = index;
    let mut end = size;
    for _ in 0..table.count {
        let item = item_at(file, table, at);
        let start = item.key as usize;
        let part = item.size as usize;
        let stop = start + part;
        end -= part;
        put(out, end, &file[start..stop]);
        // Three arms: of `Ok(None) | Err(_)`, and of a `let .. else`, a proof does not learn which it was.
        match parent_of(table.count, item.parent) {
            Ok(Some(parent)) => at = parent,
            Ok(None) => return,
            Err(_) => return,
        }
    }
}

// The key at a position of an open table: 15, then 2, 9, 10, 11, then 14.
fn key_at(file: &[u8], table: Table, at: usize, out: &mut [u8]) -> Result<WrittenKey, Refusal>
    requires { InFile file.now table }
    ensures said { result ≡ listed (key_in file.now at table) (length out.old) at }
    ensures wrote { out.new ≡ written (key_in file.now at table) out.old }
{
    if table.count <= at {
        return Err(Refusal::PastTheLast);
    }
    let size = key_size(file, table, at)?;
    if out.len() < size {
        return Err(Refusal::BufferTooShort);
    }
    write_key(file, table, at, size, out);
    Ok(WrittenKey {
        size,
        next: Cursor { at: at + 1 },
    })
}

// The index of the first item of kind 'v' at or after a position, or the item count. No `Option`: the definition `next_value` answers the count.
fn next_value_index(file: &[u8], table: Table, from: usize) -> usize
    requires { InFile file.now table }
    ensures { result ≡ next_value file.now table from }
{
    let count = table.count;
    let mut at = from;
    // A `loop`: document 01 names this form, a loop that breaks with its item.
    let found = loop {
        if count <= at {
            break count;
        }
        let item = item_at(file, table, at);
        if item.kind == VALUE_BYTE {
            break at;
        }
        at += 1;
    };
    found
}

// gvdb-rs: get_item_bytes.
// The value of the item at an index: 15, then 2 or 3 of its pointer.
#[tactic(auto, unfolding(crate::specs::Listing::value_from, crate::specs::Listing::value_opened, words::specs::Choice::pick))]
fn value_from(file: &[u8], table: Table, index: usize) -> Valued
    requires { InFile file.now table }
    ensures { result ≡ value_from file.now table index }
{
    if table.count <= index {
        return Valued::Refused(Refusal::PastTheLast);
    }
    let item = item_at(file, table, index);
    let after = index + 1;
    match open_value(file, item, Alignment::Value) {
        Err(why) => Valued::Unopened {
            why,
            index,
            next: Cursor { at: after },
        },
        Ok(()) => Valued::Value {
            index,
            start: item.from,
            end: item.to,
            next: Cursor { at: after },
        },
    }
}

impl Cursor {
    // gvdb-rs: Keys::next.
    // The key at the cursor, in the table at a pointer, written to the front of `out`. A refusal writes nothing.
    #[tactic(auto, using(layout::proofs::OpenLaws::opened_in_file), unfolding(crate::specs::Listing::key_at, crate::specs::Listing::key_opened, crate::specs::Listing::listed, crate::specs::Listing::written))]
    pub fn next_key(
        self,
        file: &[u8],
        start: u32,
        end: u32,
        out: &mut [u8],
    ) -> Result<WrittenKey, Refusal>
        ensures said { result ≡ listed (key_at file.now start end self.at) (length out.old) self.at }
        ensures wrote { out.new ≡ written (key_at file.now start end self.at) out.old }
    {
        let table = open_table(file, start, end)?;
        key_at(file, table, self.at, out)
    }

    // gvdb-rs: Values::next.
    // The first value at or after the cursor, in the table at a pointer.
    #[tactic(auto, using(layout::proofs::OpenLaws::opened_in_file), unfolding(crate::specs::Listing::value_at, crate::specs::Listing::value_in_opened))]
    pub fn next_value(self, file: &[u8], start: u32, end: u32) -> Valued
        ensures { result ≡ value_at file.now start end self.at }
    {
        match open_table(file, start, end) {
            Err(why) => Valued::Refused(why),
            Ok(table) => value_from(file, table, next_value_index(file, table, self.at)),
        }
    }
}
