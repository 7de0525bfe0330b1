// An item's key, through its parents: the step from an item to its parent, and whether an item's chain names a key.
ghost use Rattle.std.specs.Prelude.{◌≡◌, true, ◌<◌};
ghost use Rattle.text.specs.Utf8.{is_utf8};
ghost use Rattle.layout.specs.Table.{InFile};
ghost use Rattle.read_chain.specs.Chain.{parent_of, climb_from, match_text, match_item, key_of, names};

use key_order::compare::ends_with;
use layout::item::{Item, NO_ITEM, item_at};
use layout::pointer::open_pointer;
use layout::refusal::Refusal;
use layout::table::Table;
use text::utf8::{first_bad, starts_whole};
use words::align::Alignment;

// What an item says of a key: yes or no, or that its parent has to name the front of the key. An enum: neither is a failure or an absence.
#[derive(Clone, Copy)]
pub enum Matched {
    Ended(bool),
    Rest { parent: usize, size: usize },
}

// gvdb-rs: HashItem::parent.
// The parent that an item names, in a table of so many items.
#[tactic(auto, unfolding(crate::specs::Chain::parent_of, words::specs::Choice::pick))]
pub fn parent_of(count: usize, parent: u32) -> Result<Option<usize>, Refusal>
    ensures { result ≡ parent_of count parent }
{
    if parent == NO_ITEM {
        return Ok(None);
    }
    let at = parent as usize;
    if at < count {
        return Ok(Some(at));
    }
    Err(Refusal::ParentOutside)
}

// gvdb-rs: key_for_item.
// The step from an item, whose fragment has to open and be UTF-8: 2, 9 with the offset in the fragment, then 10 for its parent.
#[tactic(auto, using(crate::proofs::ChainLaws::climbing))]
pub fn climb(file: &[u8], count: usize, item: Item) -> Result<Option<usize>, Refusal>
    ensures { result ≡ climb_from file.now count item }
{
    let start = item.key as usize;
    let size = item.size as usize;
    let end = start + size;
    open_pointer(file.len(), start, end, Alignment::Key)?;
    let bad = first_bad(&file[start..end]);
    if bad != size {
        return Err(Refusal::FragmentNotUtf8(bad));
    }
    parent_of(count, item.parent)
}

// What a fragment says of a key, with the parent that the item names. That the key, which is UTF-8, ends in it is tested first: then the fragment is UTF-8 just
// where it cuts no character. It asks for the parent by itself: the `Result` of `parent_of` handed on costs as much as comparing a short fragment.
#[tactic(auto, using(crate::proofs::MatchLaws::fragment_says))]
fn match_fragment(fragment: &[u8], count: usize, parent: u32, key: &[u8]) -> Matched
    requires { is_utf8 key.now ≡ true }
    ensures { result ≡ match_text (parent_of count parent) fragment.now key.now }
{
    if !ends_with(key, key.len(), fragment) {
        return Matched::Ended(false);
    }
    if !starts_whole(fragment) {
        return Matched::Ended(false);
    }
    if parent == NO_ITEM {
        return Matched::Ended(fragment.len() == key.len());
    }
    let at = parent as usize;
    if at < count {
        return Matched::Rest {
            parent: at,
            size: key.len() - fragment.len(),
        };
    }
    Matched::Ended(false)
}

// What the item at an index says of a key.
#[tactic(auto, using(crate::proofs::MatchLaws::item_says))]
fn match_item(file: &[u8], table: Table, index: usize, key: &[u8]) -> Matched
    requires { InFile file.now table × (index < table.count) × (is_utf8 key.now ≡ true) }
    ensures { result ≡ match_item file.now table index key.now }
{
    let item = item_at(file, table, index);
    let start = item.key as usize;
    let end = start + item.size as usize;
    if open_pointer(file.len(), start, end, Alignment::Key).is_err() {
        return Matched::Ended(false);
    }
    match_fragment(&file[start..end], table.count, item.parent, key)
}

// gvdb-rs: check_key.
// Whether the chain of the item at an index names a key. The key's tail is compared with each fragment on the way up.
#[tactic(auto, using(crate::proofs::MatchLaws::chain_says))]
pub fn chain_names(file: &[u8], table: Table, index: usize, key: &[u8]) -> bool
    requires { InFile file.now table × (index < table.count) × (is_utf8 key.now ≡ true) }
    ensures { result ≡ names (key_of file.now table table.count index) key.now }
{
    let mut at = index;
    let mut rest = key.len();
    for _ in 0..table.count {
        match match_item(file, table, at, &key[..rest]) {
            Matched::Ended(answer) => {
                return answer;
            }
            Matched::Rest { parent, size } => {
                at = parent;
                rest = size;
            }
        }
    }
    false
}
