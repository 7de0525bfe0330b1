// A value lookup over two tables: the owner's is asked first, and the district's under it only where the owner's answers 12.
ghost use Rattle.std.specs.Prelude.{◌≡◌, true};
ghost use Rattle.text.specs.Utf8.{is_utf8};
ghost use Rattle.layout.specs.Table.{InFile};
ghost use Rattle.read_find.specs.Find.{manner_of};
ghost use Rattle.read.specs.Lookup.{lookup_in, value_of, lookup_value, at_item};
ghost use Rattle.read.specs.Layered.{layered_of, layered_value};

use crate::lookup::value_of;
use layout::item::item_at;
use layout::pointer::Pointer;
use layout::refusal::{Refusal, number_of};
use layout::table::{Table, open_table};
use read_find::find::find_item;
use read_find::manner::Manner;
use text::utf8::{first_bad, is_utf8};

// Which of the two tables answered.
#[derive(Clone, Copy)]
pub enum Source {
    Owner,
    District,
}

// What a lookup over two tables answers; the pointer is one into the file of the table that answered.
#[derive(Clone, Copy)]
pub struct Layered {
    pub looked: Result<Pointer, Refusal>,
    pub from: Source,
}

// The value of a key, which is UTF-8, in the district's table: `lookup::lookup_value` again. Each of the two has one caller, so the compiler takes it into it; with
// a second caller it would be a call, which costs a lookup forty instructions more.
#[tactic(auto, using(layout::proofs::OpenLaws::opened_in_file, crate::proofs::LookupLaws::finds), unfolding(crate::specs::Lookup::lookup_value, crate::specs::Lookup::lookup_item, crate::specs::Lookup::lookup_in, crate::specs::Lookup::at_opened, crate::specs::Lookup::at_found, crate::specs::Lookup::at_item, words::specs::Choice::pick))]
fn lookup_under(
    file: &[u8],
    start: u32,
    end: u32,
    key: &[u8],
    manner: Manner,
) -> Result<Pointer, Refusal>
    requires { is_utf8 key.now ≡ true }
    ensures { result ≡ lookup_value (manner_of manner) file.now start end key.now }
{
    let table = open_table(file, start, end)?;
    let index = find_item(file, table, key, manner).ok_or(Refusal::KeyNotFound)?;
    value_of(file, item_at(file, table, index))
}

// The pointer of a key's value, in the owner's table once it is open, or in the district's. What the owner's table answers is taken apart where it is made, so that
// a pointer is handed on as it is.
fn layered_in<'a, 'k>(
    owner: &'a [u8],
    table: Table,
    district: &'a [u8],
    dstart: u32,
    dend: u32,
    key: &'k [u8],
    omanner: Manner,
    dmanner: Manner,
) -> Layered
    requires { InFile owner.now table }
    ensures { result ≡ layered_of (at_item (lookup_in (manner_of omanner) owner.now key.now table) (λ item. value_of owner.now item)) (lookup_value (manner_of dmanner) district.now dstart dend key.now) }
{
    if !is_utf8(key) {
        return Layered {
            looked: Err(Refusal::KeyNotUtf8(first_bad(key))),
            from: Source::Owner,
        };
    }
    let own = match find_item(owner, table, key, omanner) {
        None => Err(Refusal::KeyNotFound),
        Some(index) => value_of(owner, item_at(owner, table, index)),
    };
    match own {
        Ok(pointer) => Layered {
            looked: Ok(pointer),
            from: Source::Owner,
        },
        Err(why) => {
            if number_of(why) == 12 {
                return Layered {
                    looked: lookup_under(district, dstart, dend, key, dmanner),
                    from: Source::District,
                };
            }
            Layered {
                looked: Err(why),
                from: Source::Owner,
            }
        }
    }
}

// The pointer of a key's value, in the owner's table or in the district's. Both files are lent for one lifetime: a view is a part of either.
#[tactic(auto, using(layout::proofs::OpenLaws::opened_in_file), unfolding(crate::specs::Layered::layered_value, crate::specs::Lookup::lookup_value, crate::specs::Lookup::lookup_item, crate::specs::Lookup::at_opened))]
pub fn lookup_layered<'a, 'k>(
    owner: &'a [u8],
    ostart: u32,
    oend: u32,
    district: &'a [u8],
    dstart: u32,
    dend: u32,
    key: &'k [u8],
    omanner: Manner,
    dmanner: Manner,
) -> Layered
    ensures { result ≡ layered_value (manner_of omanner) (manner_of dmanner) owner.now ostart oend district.now dstart dend key.now }
{
    match open_table(owner, ostart, oend) {
        Ok(table) => layered_in(owner, table, district, dstart, dend, key, omanner, dmanner),
        Err(why) => Layered {
            looked: Err(why),
            from: Source::Owner,
        },
    }
}
