// From a file to a value's bytes by way of the views. No parameter or result is a view, so a caller needs no proof written by hand.
ghost use Rattle.read_find.specs.Find.{manner_of};
ghost use Rattle.read.specs.Lookup.{lookup_value};
ghost use Rattle.view_part.specs.Part.{ValueIn};
ghost use Rattle.view.specs.Through.{nested_value};

use read_find::manner::Manner;
use view::table::open_view;

// The bytes of a key's value.
pub fn value_bytes<'a>(file: &'a [u8], start: u32, end: u32, key: &[u8], manner: Manner) -> &'a [u8]
    ensures { ValueIn file.entry (lookup_value (manner_of manner) file.now start end key.now) result }
{
    let opened = open_view(file, start, end, manner);
    let value = opened.table.value(key);
    value.bytes
}

// The bytes of a key's value in the nested table of another key.
pub fn nested_bytes<'a>(
    file: &'a [u8],
    start: u32,
    end: u32,
    table: &[u8],
    key: &[u8],
    manner: Manner,
) -> &'a [u8]
    ensures { ValueIn file.entry (nested_value (manner_of manner) file.now start end table.now key.now) result }
{
    let opened = open_view(file, start, end, manner);
    let nested = opened.table.nested(table);
    let value = nested.table.value(key);
    value.bytes
}
