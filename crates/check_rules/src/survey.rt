// One walk over all containers, which sets the bit of each child that its container lists. A child names one parent, so one set of bits serves all.
ghost use Rattle.std.specs.Prelude.{◌≡◌, ◌+◌, ◌*◌, ◌≤◌, length};
ghost use Rattle.words.specs.Below.{all_below};
ghost use Rattle.layout.specs.Table.{InFile};
ghost use Rattle.check_rules.specs.Rules.{child_good, among, lists_it};
ghost use Rattle.check_rules.specs.Survey.{fresh_child, after_child, five_or_shut, Fresh, Surveying, Survey, Blank};

use crate::bits::{has_bit, set_bit};
use crate::rules::value_opens;
use layout::item::{Item, item_at};
use layout::kind::CONTAINER_BYTE;
use layout::table::Table;
use read_listing::children::child_count;
use words::field::word_at;

// Sets the bit of a child that is an item, names the container as its parent, and has no bit yet. Answers whether it is such a child.
#[tactic(auto, unfolding(crate::specs::Survey::fresh_child, crate::specs::Survey::after_child, words::specs::Choice::pick))]
fn survey_child(file: &[u8], table: Table, index: usize, child: usize, bits: &mut [usize]) -> bool
    requires { InFile file.now table × (table.count ≤ 64 * length bits.old) }
    ensures said { result ≡ fresh_child file.now table index bits.old child }
    ensures wrote { bits.new ≡ after_child result bits.old child }
{
    if table.count <= child {
        return false;
    }
    let item = item_at(file, table, child);
    if item.parent as usize != index {
        return false;
    }
    if has_bit(bits, child) {
        return false;
    }
    set_bit(bits, child);
    true
}

// Sets the bits of the children named by the n words from `from` on, up to the first that is not good. Answers whether all are.
fn survey_children(
    file: &[u8],
    table: Table,
    index: usize,
    from: usize,
    n: usize,
    bits: &mut [usize],
) -> bool
    requires in_file { InFile file.now table × (from + 4 * n ≤ length file.now) }
    requires fresh { Fresh file.now table index bits.old }
    ensures said { result ≡ all_below (child_good file.now table index from) n }
    ensures wrote { Surveying file.now table index (among file.now from n) bits.old bits.new result }
{
    for k in 0..n {
        let child = word_at(file, from + 4 * k) as usize;
        if !survey_child(file, table, index, child, bits) {
            return false;
        }
    }
    true
}

// Sets the bits of the children of an item that is a container and keeps rule 4. Answers whether all of them are good.
fn survey_container(file: &[u8], table: Table, index: usize, item: Item, bits: &mut [usize]) -> bool
    requires in_file { InFile file.now table }
    requires fresh { Fresh file.now table index bits.old }
    ensures said { result ≡ five_or_shut file.now table index item }
    ensures wrote { Surveying file.now table index (λ c. lists_it file.now c item) bits.old bits.new result }
{
    if item.kind != CONTAINER_BYTE {
        return true;
    }
    if !value_opens(file, item) {
        return true;
    }
    let from = item.from as usize;
    survey_children(file, table, index, from, child_count(item), bits)
}

// Sets the bits of the children of all containers up to the first that keeps rule 4 and breaks rule 5. Answers its index, or the item count.
// No `Option`: by `Survey` the items below the answer are surveyed, which holds of the count too.
pub fn survey_all(file: &[u8], table: Table, bits: &mut [usize]) -> usize
    requires { InFile file.now table × Blank table bits.old }
    ensures { Survey file.now table result bits.new }
{
    for at in 0..table.count {
        let item = item_at(file, table, at);
        if !survey_container(file, table, at, item, bits) {
            return at;
        }
    }
    table.count
}
