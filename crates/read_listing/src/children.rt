// The children of a container, in stored order: a cursor by value that comes back moved on, as in the other listings.
ghost use Rattle.std.specs.Prelude.{◌≡◌, ◌≤◌, ◌<◌, length, Ok};
ghost use Rattle.layout.specs.Limits.{longest_file};
ghost use Rattle.layout.specs.Table.{InFile};
ghost use Rattle.read_find.specs.Find.{manner_of};
ghost use Rattle.read_listing.specs.Children.{child_count, open_list, child_named, child_of, child_from, child_in_opened, next_child};

use crate::listing::Cursor;
use layout::item::{Item, item_at};
use layout::kind::{CONTAINER_BYTE, kind_known};
use layout::pointer::open_pointer;
use layout::refusal::Refusal;
use layout::table::{Table, open_table};
use read::lookup::lookup_in;
use read_find::manner::Manner;
use text::utf8::{first_bad, is_utf8};
use words::align::Alignment;
use words::field::word_at;

// A child: its index, the byte of its kind, the pointer of its fragment, and the next position. A refused child can be passed over.
#[derive(Clone, Copy)]
pub struct Child {
    pub index: usize,
    pub kind: u8,
    pub start: u32,
    pub end: u32,
    pub next: Cursor,
}

// How many children a container lists.
#[tactic(auto, unfolding(crate::specs::Children::child_count))]
pub fn child_count(item: Item) -> usize
    requires { item.from ≤ item.to }
    ensures { result ≡ child_count item }
{
    (item.to as usize - item.from as usize) / 4
}

// Whether an item is a container whose list opens: 13, 2 or 3 of its value pointer, 13 for a length that is not divisible by 4.
#[tactic(auto, using(layout::proofs::OpenLaws::pointer_inside), unfolding(crate::specs::Children::open_list, crate::specs::Children::whole_words, words::specs::Choice::pick))]
fn open_list(file: &[u8], item: Item) -> Result<(), Refusal>
    ensures { result ≡ open_list file.now item }
{
    if item.kind != CONTAINER_BYTE {
        return Err(Refusal::OtherKind);
    }
    let from = item.from as usize;
    let to = item.to as usize;
    open_pointer(file.len(), from, to, Alignment::Table)?;
    if (to - from) % 4 != 0 {
        return Err(Refusal::OtherKind);
    }
    Ok(())
}

// A child of which only the fragment is left to judge: 2, or 9 with the offset in it.
#[tactic(auto, using(layout::proofs::OpenLaws::pointer_inside, read_chain::proofs::ChainLaws::fragment_taken, read_chain::proofs::ChainLaws::same_place), unfolding(crate::specs::Children::child_named, crate::specs::Children::at_fragment, words::specs::Choice::pick))]
fn child_named(file: &[u8], index: usize, child: Item, at: usize) -> Result<Child, Refusal>
    requires { (length file.now ≤ longest_file) × (at < 4294967296) }
    ensures { result ≡ child_named file.now index child at }
{
    let start = child.key as usize;
    let end = start + child.size as usize;
    open_pointer(file.len(), start, end, Alignment::Key)?;
    let fragment = &file[start..end];
    if !is_utf8(fragment) {
        return Err(Refusal::FragmentNotUtf8(first_bad(fragment)));
    }
    Ok(Child {
        index,
        kind: child.kind,
        start: child.key,
        end: end as u32,
        next: Cursor { at: at + 1 },
    })
}

// The child with an index, listed at a position: 10, 13, then its fragment.
#[tactic(auto, unfolding(crate::specs::Children::child_of, words::specs::Choice::pick))]
fn child_of(file: &[u8], table: Table, index: usize, at: usize) -> Result<Child, Refusal>
    requires { InFile file.now table × (at < 4294967296) }
    ensures { result ≡ child_of file.now table index at }
{
    if table.count <= index {
        return Err(Refusal::ParentOutside);
    }
    let child = item_at(file, table, index);
    if !kind_known(child.kind) {
        return Err(Refusal::OtherKind);
    }
    child_named(file, index, child, at)
}

// The child at a position of an item: what its list refuses, 15, then the child.
#[tactic(auto, using(crate::proofs::ChildLaws::list_inside), unfolding(crate::specs::Children::child_from, crate::specs::Children::child_at, crate::specs::Children::child_count, words::specs::Choice::pick))]
fn child_from(file: &[u8], table: Table, item: Item, at: usize) -> Result<Child, Refusal>
    requires { InFile file.now table }
    ensures { result ≡ child_from (open_list file.now item) file.now table item at }
{
    open_list(file, item)?;
    if child_count(item) <= at {
        return Err(Refusal::PastTheLast);
    }
    let index = word_at(file, item.from as usize + 4 * at) as usize;
    child_of(file, table, index, at)
}

// The same of the container under a key, in an open table: 8, 12, then the container.
#[tactic(auto, unfolding(crate::specs::Children::child_in_opened, crate::specs::Children::child_of_sought))]
fn child_in(
    file: &[u8],
    table: Table,
    key: &[u8],
    at: usize,
    manner: Manner,
) -> Result<Child, Refusal>
    requires { InFile file.now table }
    ensures { result ≡ child_in_opened (manner_of manner) file.now key.now at (Ok table) }
{
    let item = lookup_in(file, table, key, manner)?;
    child_from(file, table, item, at)
}

impl Cursor {
    // The child at the cursor's position of the container under a key, in the table at a pointer.
    #[tactic(auto, using(layout::proofs::OpenLaws::opened_in_file), unfolding(crate::specs::Children::next_child, crate::specs::Children::child_in_opened))]
    pub fn next_child(
        self,
        file: &[u8],
        start: u32,
        end: u32,
        key: &[u8],
        manner: Manner,
    ) -> Result<Child, Refusal>
        ensures { result ≡ next_child (manner_of manner) file.now start end key.now self.at }
    {
        let table = open_table(file, start, end)?;
        child_in(file, table, key, self.at, manner)
    }
}
