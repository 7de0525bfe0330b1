// Reading a table: opening, lookups, listings, for C.
ghost use Rattle.std.specs.Prelude.{◌≡◌, length};
ghost use Rattle.text.specs.Utf8.{first_bad};
ghost use Rattle.layout.specs.Table.{open_table};
ghost use Rattle.read_find.specs.Find.{manner_of};
ghost use Rattle.read.specs.Lookup.{lookup_value, lookup_table};
ghost use Rattle.read.specs.Layered.{layered_value};
ghost use Rattle.read_listing.specs.Listing.{key_at, listed, written, value_at};
ghost use Rattle.read_listing.specs.Children.{next_child};
ghost use Rattle.answers.specs.Manner.{manner_named};
ghost use Rattle.answers.specs.Reading.{opened_answer, looked_answer, layered_answer, listed_answer, valued_answer, childed_answer};

use answers::reading::{GvdbChild, GvdbKey, GvdbLayered, GvdbOpened, GvdbPlace, GvdbValue};

// Where the first sequence that RFC 3629 does not allow starts, or the length of a good text.
#[unsafe(no_mangle)]
pub extern "C" fn gvdb_first_bad(text: &[u8]) -> usize
    ensures { result ≡ first_bad text.now }
{
    gvdb::reading::gvdb_first_bad(text)
}

// gvdb-rs: File::read_hash_table.
// Opens the table at a pointer.
#[unsafe(no_mangle)]
pub extern "C" fn gvdb_open(file: &[u8], start: u32, end: u32) -> GvdbOpened
    ensures { result ≡ opened_answer (open_table file.now start end) }
{
    gvdb::reading::gvdb_open(file, start, end)
}

// gvdb-rs: get_bytes.
// Looks up the value of a key.
#[unsafe(no_mangle)]
pub extern "C" fn gvdb_get(file: &[u8], start: u32, end: u32, key: &[u8], manner: u32) -> GvdbPlace
    ensures { result ≡ looked_answer (lookup_value (manner_of (manner_named manner)) file.now start end key.now) }
{
    gvdb::reading::gvdb_get(file, start, end, key, manner)
}

// Looks up the value of a key in the owner's table, and in the district's where the owner's answers 12.
#[unsafe(no_mangle)]
pub extern "C" fn gvdb_get_layered(
    owner: &[u8],
    ostart: u32,
    oend: u32,
    district: &[u8],
    dstart: u32,
    dend: u32,
    key: &[u8],
    omanner: u32,
    dmanner: u32,
) -> GvdbLayered
    ensures { result ≡ layered_answer (layered_value (manner_of (manner_named omanner)) (manner_of (manner_named dmanner)) owner.now ostart oend district.now dstart dend key.now) }
{
    gvdb::reading::gvdb_get_layered(
        owner, ostart, oend, district, dstart, dend, key, omanner, dmanner,
    )
}

// gvdb-rs: get_hash_table.
// Looks up the nested table of a key.
#[unsafe(no_mangle)]
pub extern "C" fn gvdb_get_table(
    file: &[u8],
    start: u32,
    end: u32,
    key: &[u8],
    manner: u32,
) -> GvdbPlace
    ensures { result ≡ looked_answer (lookup_table (manner_of (manner_named manner)) file.now start end key.now) }
{
    gvdb::reading::gvdb_get_table(file, start, end, key, manner)
}

// gvdb-rs: Keys::next.
// The key at a position, written to the front of `out`. A refusal writes nothing.
#[unsafe(no_mangle)]
pub extern "C" fn gvdb_next_key(
    file: &[u8],
    start: u32,
    end: u32,
    position: usize,
    out: &mut [u8],
) -> GvdbKey
    ensures said { result ≡ listed_answer (listed (key_at file.now start end position) (length out.old) position) }
    ensures wrote { out.new ≡ written (key_at file.now start end position) out.old }
{
    gvdb::reading::gvdb_next_key(file, start, end, position, out)
}

// gvdb-rs: Values::next.
// The first value at or after a position.
#[unsafe(no_mangle)]
pub extern "C" fn gvdb_next_value(file: &[u8], start: u32, end: u32, position: usize) -> GvdbValue
    ensures { result ≡ valued_answer (value_at file.now start end position) }
{
    gvdb::reading::gvdb_next_value(file, start, end, position)
}

// The child at a position of the container of a key, in stored order.
#[unsafe(no_mangle)]
pub extern "C" fn gvdb_next_child(
    file: &[u8],
    start: u32,
    end: u32,
    key: &[u8],
    position: usize,
    manner: u32,
) -> GvdbChild
    ensures { result ≡ childed_answer (next_child (manner_of (manner_named manner)) file.now start end key.now position) }
{
    gvdb::reading::gvdb_next_child(file, start, end, key, position, manner)
}
