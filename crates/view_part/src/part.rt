// The parts of a lent file and the numbers that a view is made of, from an answer. A refusal's part is `&file[..0]`, its numbers are 0.
// Start and end of each answer are functions of their own: the definitions of views name them.
ghost use Rattle.std.specs.Prelude.{◌≡◌, []};
ghost use Rattle.view_part.specs.Part.{Viewed, Stretch, ValueIn, LayeredIn, ListedIn, ChildIn, OpenedIn, NestedIn, opened_pointer, pointer_start, pointer_end, listed_start, listed_end, child_start, child_end};

use layout::pointer::Pointer;
use layout::refusal::Refusal;
use layout::table::Table;
use read::layered::{Layered, Source};
use read_listing::children::Child;
use read_listing::listing::Valued;

// No bytes of the file.
pub fn nothing(file: &[u8]) -> &[u8]
    ensures { Viewed file.entry result 0 [] }
{
    &file[..0]
}

// The bytes from start up to end; none where they do not lie in the file.
// Not `get`: its contract says which bytes, and not where they lie.
#[tactic(auto, unfolding(crate::specs::Part::stretch_at, crate::specs::Part::stretch_of, words::specs::Choice::pick))]
pub fn stretch(file: &[u8], start: u32, end: u32) -> &[u8]
    ensures { Stretch file.entry start end result }
{
    let from = start as usize;
    let to = end as usize;
    if to < from || file.len() < to {
        return nothing(file);
    }
    &file[from..to]
}

// Start and end of the pointer that a lookup answers.
pub fn pointer_start(looked: Result<Pointer, Refusal>) -> u32
    ensures { result ≡ pointer_start looked }
{
    looked.map_or(0, |pointer| pointer.start)
}

pub fn pointer_end(looked: Result<Pointer, Refusal>) -> u32
    ensures { result ≡ pointer_end looked }
{
    looked.map_or(0, |pointer| pointer.end)
}

// Start and end of the pointer that value listing answers.
pub fn listed_start(valued: Valued) -> u32
    ensures { result ≡ listed_start valued }
{
    match valued {
        Valued::Value { start, .. } => start,
        Valued::Unopened { .. } | Valued::Refused(_) => 0,
    }
}

pub fn listed_end(valued: Valued) -> u32
    ensures { result ≡ listed_end valued }
{
    match valued {
        Valued::Value { end, .. } => end,
        Valued::Unopened { .. } | Valued::Refused(_) => 0,
    }
}

// Start and end of the fragment of a child that was listed.
pub fn child_start(childed: Result<Child, Refusal>) -> u32
    ensures { result ≡ child_start childed }
{
    childed.map_or(0, |child| child.start)
}

pub fn child_end(childed: Result<Child, Refusal>) -> u32
    ensures { result ≡ child_end childed }
{
    childed.map_or(0, |child| child.end)
}

// The bytes of a value that was looked up.
pub fn value_part(file: &[u8], looked: Result<Pointer, Refusal>) -> &[u8]
    ensures { ValueIn file.entry looked result }
{
    stretch(file, pointer_start(looked), pointer_end(looked))
}

// What a lookup over two tables answers, and which of them did: a view is made of what calls answer, and of no field of a plain struct.
pub fn layered_looked(layered: Layered) -> Result<Pointer, Refusal>
    ensures { result ≡ layered.looked }
{
    layered.looked
}

pub fn layered_from(layered: Layered) -> Source
    ensures { result ≡ layered.from }
{
    layered.from
}

// The bytes of a value that was looked up in two tables: of the one file or of the other.
pub fn layered_part<'a>(owner: &'a [u8], district: &'a [u8], layered: Layered) -> &'a [u8]
    ensures { LayeredIn owner.entry district.entry layered result }
{
    match layered.from {
        Source::Owner => value_part(owner, layered.looked),
        Source::District => value_part(district, layered.looked),
    }
}

// The bytes of a value that was listed.
pub fn listed_part(file: &[u8], valued: Valued) -> &[u8]
    ensures { ListedIn file.entry valued result }
{
    stretch(file, listed_start(valued), listed_end(valued))
}

// The fragment of a child that was listed.
pub fn child_part(file: &[u8], childed: Result<Child, Refusal>) -> &[u8]
    ensures { ChildIn file.entry childed result }
{
    stretch(file, child_start(childed), child_end(childed))
}

// The file of a nested table that was looked up.
pub fn nested_part(file: &[u8], looked: Result<Pointer, Refusal>) -> &[u8]
    ensures { NestedIn file.entry looked result }
{
    match looked {
        Ok(_) => file,
        Err(_) => nothing(file),
    }
}

// The file of a table that opened.
pub fn opened_part(file: &[u8], opened: Result<Table, Refusal>) -> &[u8]
    ensures { OpenedIn file.entry opened result }
{
    match opened {
        Ok(_) => file,
        Err(_) => nothing(file),
    }
}

// A table's start or end, which is `number`, where the table opened.
pub fn opened_pointer(opened: Result<Table, Refusal>, number: u32) -> u32
    ensures { result ≡ opened_pointer opened number }
{
    if opened.is_ok() { number } else { 0 }
}
