// The rules of an item that are tested by themselves: 1 and 2 of its key, 4 of its value, and whether a container lists an index.
ghost use Rattle.std.specs.Prelude.{◌≡◌, ◌+◌, ◌*◌, ◌≤◌, ◌<◌, length};
ghost use Rattle.layout.specs.Table.{InFile, open_table};
ghost use Rattle.layout.specs.Pointer.{open_pointer};
ghost use Rattle.read_listing.specs.Children.{child_count};
ghost use Rattle.read_find.specs.Find.{manner_of};
ghost use Rattle.check_rules.specs.Rules.{is_inside, is_table, list_opens, value_opens, among, lists_it};
ghost use Rattle.check_rules.specs.Survey.{key_rule};

use check_hash::tally::{JoinedKey, joined_key};
use check_keys::search::find_joined;
use layout::item::{Item, open_value};
use layout::kind::{CONTAINER_BYTE, TABLE_BYTE, VALUE_BYTE};
use layout::pointer::open_pointer;
use layout::table::{Table, open_table};
use read_find::manner::Manner;
use read_listing::children::child_count;
use words::align::Alignment;
use words::field::word_at;

// Which of rules 1 and 2 the item's key breaks first; 0 for neither.
// No `Option`: the definition `key_rule` and the theorems speak of the rules' numbers, as document 01 numbers them.
pub fn key_rule(file: &[u8], table: Table, index: usize, manner: Manner) -> u32
    requires { InFile file.now table × (index < table.count) }
    ensures { result ≡ key_rule (manner_of manner) file.now table index }
{
    let Some(JoinedKey { hash, size }) = joined_key(file, table, index, manner.form) else {
        return 1;
    };
    if find_joined(file, table, index, size, hash, manner) == Some(index) {
        0
    } else {
        2
    }
}

// Rule 4 of a value: its pointer opens at alignment 8.
#[tactic(auto, using(crate::proofs::RuleLaws::inside_ok))]
fn value_inside(file: &[u8], item: Item) -> bool
    ensures { result ≡ is_inside (open_pointer (length file.now) item.from item.to 8) }
{
    open_value(file, item, Alignment::Value).is_ok()
}

// Rule 4 of a nested table: it opens.
#[tactic(auto, using(crate::proofs::RuleLaws::table_ok))]
fn nested_opens(file: &[u8], item: Item) -> bool
    ensures { result ≡ is_table (open_table file.now item.from item.to) }
{
    open_table(file, item.from, item.to).is_ok()
}

// Rule 4 of a container: its list opens, and has a length divisible by 4.
#[tactic(auto, using(crate::proofs::RuleLaws::inside_ok, layout::proofs::OpenLaws::pointer_inside), unfolding(crate::specs::Rules::list_opens))]
fn list_opens(file: &[u8], item: Item) -> bool
    ensures { result ≡ list_opens file.now item }
{
    let from = item.from as usize;
    let to = item.to as usize;
    open_pointer(file.len(), from, to, Alignment::Table).is_ok() && (to - from) % 4 == 0
}

// Rule 4: the value pointer opens, as its kind asks.
#[tactic(auto, unfolding(crate::specs::Rules::value_opens, words::specs::Choice::pick))]
pub fn value_opens(file: &[u8], item: Item) -> bool
    ensures { result ≡ value_opens file.now item }
{
    let kind = item.kind;
    if kind == VALUE_BYTE {
        return value_inside(file, item);
    }
    if kind == TABLE_BYTE {
        return nested_opens(file, item);
    }
    if kind == CONTAINER_BYTE {
        return list_opens(file, item);
    }
    false
}

// Whether an index is among the n child words from `from` on.
fn is_among(file: &[u8], from: usize, n: usize, index: usize) -> bool
    requires { from + 4 * n ≤ length file.now }
    ensures { result ≡ among file.now from n index }
{
    (0..n).any(|k| word_at(file, from + 4 * k) as usize == index)
}

// Whether an item is a container that keeps rule 4 and lists an index.
#[tactic(auto, using(crate::proofs::RuleLaws::list_room), unfolding(crate::specs::Rules::lists_it))]
pub fn lists_it(file: &[u8], index: usize, parent: Item) -> bool
    ensures { result ≡ lists_it file.now index parent }
{
    if parent.kind != CONTAINER_BYTE {
        return false;
    }
    if !value_opens(file, parent) {
        return false;
    }
    let from = parent.from as usize;
    is_among(file, from, child_count(parent), index)
}
