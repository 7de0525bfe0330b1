// Looking a key up: what the item that it names points to.
ghost use Rattle.std.specs.Prelude.{◌≡◌};
ghost use Rattle.layout.specs.Table.{InFile};
ghost use Rattle.read_find.specs.Find.{manner_of};
ghost use Rattle.read.specs.Lookup.{lookup_in, value_of, nested_of, lookup_value, lookup_table, at_item};

use layout::item::{Item, item_at, open_value};
use layout::kind::{TABLE_BYTE, VALUE_BYTE};
use layout::pointer::Pointer;
use layout::refusal::Refusal;
use layout::table::{Table, open_table};
use read_find::find::find_item;
use read_find::manner::Manner;
use text::utf8::{first_bad, is_utf8};
use words::align::Alignment;

// The item of a key in an open table: 8 with the offset in the key, 12, or the item.
// Inline: a call would hand the item over through memory (DECISIONS).
#[tactic(auto, using(crate::proofs::LookupLaws::finds), unfolding(crate::specs::Lookup::lookup_in, crate::specs::Lookup::at_found, words::specs::Choice::pick))]
#[inline(always)]
pub fn lookup_in(file: &[u8], table: Table, key: &[u8], manner: Manner) -> Result<Item, Refusal>
    requires { InFile file.now table }
    ensures { result ≡ lookup_in (manner_of manner) file.now key.now table }
{
    if !is_utf8(key) {
        return Err(Refusal::KeyNotUtf8(first_bad(key)));
    }
    let index = find_item(file, table, key, manner).ok_or(Refusal::KeyNotFound)?;
    Ok(item_at(file, table, index))
}

// gvdb-rs: get_item_bytes.
// The value of an item: 13 for another kind, then 2 or 3 of its pointer.
#[tactic(auto, unfolding(crate::specs::Lookup::value_of, crate::specs::Lookup::at_pointer, words::specs::Choice::pick))]
pub fn value_of(file: &[u8], item: Item) -> Result<Pointer, Refusal>
    ensures { result ≡ value_of file.now item }
{
    if item.kind != VALUE_BYTE {
        return Err(Refusal::OtherKind);
    }
    open_value(file, item, Alignment::Value)?;
    Ok(Pointer {
        start: item.from,
        end: item.to,
    })
}

// The nested table of an item: 13 for another kind, then what opening it refuses.
#[tactic(auto, unfolding(crate::specs::Lookup::nested_of, crate::specs::Lookup::at_nested, words::specs::Choice::pick))]
fn nested_of(file: &[u8], item: Item) -> Result<Pointer, Refusal>
    ensures { result ≡ nested_of file.now item }
{
    if item.kind != TABLE_BYTE {
        return Err(Refusal::OtherKind);
    }
    open_table(file, item.from, item.to)?;
    Ok(Pointer {
        start: item.from,
        end: item.to,
    })
}

// gvdb-rs: get_bytes.
// The pointer of a key's value, in the table at a pointer.
#[tactic(auto, using(layout::proofs::OpenLaws::opened_in_file), unfolding(crate::specs::Lookup::lookup_value, crate::specs::Lookup::lookup_item, crate::specs::Lookup::at_opened, crate::specs::Lookup::at_item))]
pub fn lookup_value(
    file: &[u8],
    start: u32,
    end: u32,
    key: &[u8],
    manner: Manner,
) -> Result<Pointer, Refusal>
    ensures { result ≡ lookup_value (manner_of manner) file.now start end key.now }
{
    let table = open_table(file, start, end)?;
    let item = lookup_in(file, table, key, manner)?;
    value_of(file, item)
}

// gvdb-rs: get_hash_table.
// The pointer of a key's nested table, in the table at a pointer. As `lookup_value` but for what is asked of the item: one function over it would be longer.
#[tactic(auto, using(layout::proofs::OpenLaws::opened_in_file), unfolding(crate::specs::Lookup::lookup_table, crate::specs::Lookup::lookup_item, crate::specs::Lookup::at_opened, crate::specs::Lookup::at_item))]
pub fn lookup_table(
    file: &[u8],
    start: u32,
    end: u32,
    key: &[u8],
    manner: Manner,
) -> Result<Pointer, Refusal>
    ensures { result ≡ lookup_table (manner_of manner) file.now start end key.now }
{
    let table = open_table(file, start, end)?;
    let item = lookup_in(file, table, key, manner)?;
    nested_of(file, item)
}
