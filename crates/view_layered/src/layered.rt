// From two files to a value's bytes by way of the views. No parameter or result is a view, so a caller needs no proof written by hand.
ghost use Rattle.read_find.specs.Find.{manner_of};
ghost use Rattle.read.specs.Layered.{layered_value};
ghost use Rattle.view_part.specs.Part.{LayeredIn};

use read_find::manner::Manner;
use view::table::open_view;

// The bytes of a key's value in the owner's table, or in the district's under it.
pub fn layered_bytes<'a>(
    owner: &'a [u8],
    ostart: u32,
    oend: u32,
    district: &'a [u8],
    dstart: u32,
    dend: u32,
    key: &[u8],
    omanner: Manner,
    dmanner: Manner,
) -> &'a [u8]
    ensures { LayeredIn owner.entry district.entry (layered_value (manner_of omanner) (manner_of dmanner) owner.now ostart oend district.now dstart dend key.now) result }
{
    let own = open_view(owner, ostart, oend, omanner);
    let under = open_view(district, dstart, dend, dmanner);
    let layered = own.table.layered(under.table, key);
    layered.bytes
}
