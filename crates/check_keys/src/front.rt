// The front of an item's joined key that is still to be compared. It is cut from its end, by stretches of the file that hold the same bytes.
ghost use Rattle.std.specs.Prelude.{◌≡◌, ◌+◌, ◌-◌, ◌≤◌, ◌<◌, length};
ghost use Rattle.words.specs.Store.{part};
ghost use Rattle.key_order.specs.Compare.{same_bytes};
ghost use Rattle.layout.specs.Table.{InFile};
ghost use Rattle.check_keys.specs.Front.{front_at, front_bytes, FrontFits, Raised, StretchPassed, BackPassed};

use key_order::compare::same_bytes;
use layout::item::item_at;
use layout::table::Table;
use read_chain::chain::parent_of;

// A front of `size` bytes: it ends `rest` bytes into the fragment of item `at`, and `left` parent steps are left.
#[derive(Clone, Copy)]
pub struct Front {
    pub at: usize,
    pub rest: usize,
    pub size: usize,
    pub left: usize,
}

// The front of `size` bytes that ends with the fragment of item `at`.
#[tactic(auto, unfolding(crate::specs::Front::front_at))]
pub fn front_at(file: &[u8], table: Table, at: usize, size: usize, left: usize) -> Front
    requires { InFile file.now table × (at < table.count) }
    ensures { result ≡ front_at file.now table at size left }
{
    let item = item_at(file, table, at);
    Front {
        at,
        rest: item.size as usize,
        size,
        left,
    }
}

// The same front, told from the parent: none of the item's fragment is left, so it ends with the parent's.
#[tactic(auto, using(crate::proofs::FrontLaws::raise_says))]
fn raise(file: &[u8], table: Table, front: Front) -> Front
    requires { InFile file.now table × FrontFits file.now table front × (front.rest ≡ 0) × (0 < front.size) }
    ensures { Raised file.now table front result }
{
    let item = item_at(file, table, front.at);
    match parent_of(table.count, item.parent) {
        Ok(Some(parent)) => front_at(file, table, parent, front.size, front.left - 1),
        // No such front: one that is not empty has a parent.
        _ => front,
    }
}

// Whether the last n bytes of a front, all of them in the item's fragment, are those of the file up to `end`.
#[tactic(auto, using(crate::proofs::FrontLaws::stretch_says))]
fn same_stretch(file: &[u8], table: Table, front: Front, end: usize, n: usize) -> bool
    requires { InFile file.now table × FrontFits file.now table front × (n ≤ front.rest) × (n ≤ end) × (end ≤ length file.now) }
    ensures { result ≡ same_bytes (part (front_bytes file.now table front) (front.size - n) n) (part file.now (end - n) n) }
{
    let item = item_at(file, table, front.at);
    let stop = item.key as usize + front.rest;
    let start = stop - n;
    let from = end - n;
    same_bytes(&file[start..stop], &file[from..end])
}

// Passes over as many bytes as the fragment and the stretch both have left; where the fragment has none left, only moves up to the parent.
#[tactic(auto, using(crate::proofs::PassLaws::turn_says))]
fn pass_some(file: &[u8], table: Table, front: Front, from: usize, end: usize) -> Option<Front>
    requires in_file { InFile file.now table × FrontFits file.now table front }
    requires from_lt_end { (from < end) × (end ≤ length file.now) × (end - from ≤ front.size) }
    ensures { StretchPassed file.now table front from end result }
{
    if front.rest == 0 {
        return Some(raise(file, table, front));
    }
    let n = front.rest.min(end - from);
    if !same_stretch(file, table, front, end, n) {
        return None;
    }
    Some(Front {
        rest: front.rest - n,
        size: front.size - n,
        ..front
    })
}

// Passes over the bytes of the file from `from` to `to`: the front has to end in them.
#[tactic(auto, using(crate::proofs::PassLaws::loop_says))]
pub fn pass_back(file: &[u8], table: Table, front: Front, from: usize, to: usize) -> Option<Front>
    requires { InFile file.now table × FrontFits file.now table front × (from ≤ to) × (to ≤ length file.now) }
    ensures { BackPassed file.now table front (part file.now from (to - from)) result }
{
    if front.size < to - from {
        return None;
    }
    let mut here = front;
    let mut end = to;
    // A `while`: how far a turn goes depends on the fragment, and one that moves up to the parent passes over nothing.
    while from < end {
        let next = pass_some(file, table, here, from, end)?;
        end -= here.size - next.size;
        here = next;
    }
    Some(here)
}
