// The check: the first item that breaks a rule, with the first rule that it breaks.
ghost use Rattle.std.specs.Prelude.{◌≡◌, ◌≤◌, ◌<◌};
ghost use Rattle.layout.specs.Table.{InFile};
ghost use Rattle.layout.specs.Item.{item_at};
ghost use Rattle.read_find.specs.Find.{manner_of};
ghost use Rattle.check_rules.specs.Rules.{parent_good, broken_rule, explained, check_in, check_table};
ghost use Rattle.check_rules.specs.Survey.{Survey};

use check_rules::bits::has_bit;
use check_rules::checked::Checked;
use check_rules::rules::{key_rule, lists_it, value_opens};
use check_rules::survey::survey_all;
use layout::item::{Item, item_at};
use layout::kind::kind_known;
use layout::table::{Table, open_table};
use read_chain::chain::parent_of;
use read_find::manner::Manner;
use read_listing::listing::key_size;

// Rule 6: by the item's bit, where the survey came past its parent; else by the parent's list.
#[tactic(auto, using(check_keys::proofs::FrontLaws::parent_below), unfolding(check_rules::specs::Rules::parent_good, check_rules::specs::Rules::parent_keeps))]
fn parent_good(
    file: &[u8],
    table: Table,
    index: usize,
    item: Item,
    stop: usize,
    bits: &[usize],
) -> bool
    requires in_file { InFile file.now table × (index < table.count) × (item ≡ item_at file.now table index) }
    requires survey { Survey file.now table stop bits.now }
    ensures { result ≡ parent_good file.now table index item }
{
    match parent_of(table.count, item.parent) {
        Err(_) => false,
        Ok(None) => true,
        Ok(Some(parent)) if parent < stop => has_bit(bits, index),
        Ok(Some(parent)) => lists_it(file, index, item_at(file, table, parent)),
    }
}

// The first rule that an item breaks, or 0.
// No `Option`: the definition `broken_rule` and the theorems speak of the rules' numbers, as document 01 numbers them.
fn broken_rule(
    file: &[u8],
    table: Table,
    index: usize,
    stop: usize,
    bits: &[usize],
    manner: Manner,
) -> u32
    requires in_file { InFile file.now table × (index < table.count) × (index ≤ stop) }
    requires survey { Survey file.now table stop bits.now }
    ensures { result ≡ broken_rule (manner_of manner) file.now table index }
{
    let key = key_rule(file, table, index, manner);
    if key != 0 {
        return key;
    }
    let item = item_at(file, table, index);
    if !kind_known(item.kind) {
        return 3;
    }
    if !value_opens(file, item) {
        return 4;
    }
    if index == stop {
        return 5;
    }
    if !parent_good(file, table, index, item, stop, bits) {
        return 6;
    }
    0
}

// A broken rule and its item; for rule 1 with what listing the item refuses.
fn explain(file: &[u8], table: Table, rule: u32, item: usize) -> Checked
    requires { InFile file.now table × (item < table.count) }
    ensures { result ≡ explained file.now table (Checked.Broken rule item) }
{
    if rule == 1 {
        if let Err(why) = key_size(file, table, item) {
            return Checked::Unlisted { why, item };
        }
    }
    Checked::Broken { rule, item }
}

// The first item of an open table that breaks a rule.
fn check_surveyed(file: &[u8], table: Table, stop: usize, bits: &[usize], manner: Manner) -> Checked
    requires in_file { InFile file.now table }
    requires survey { Survey file.now table stop bits.now }
    ensures { result ≡ check_in (manner_of manner) file.now table }
{
    for at in 0..table.count {
        let rule = broken_rule(file, table, at, stop, bits, manner);
        if rule != 0 {
            return explain(file, table, rule, at);
        }
    }
    Checked::Sound
}

// The check of an open table, with a bit for each of the 699,050 items that a file can hold.
fn check_open(file: &[u8], table: Table, manner: Manner) -> Checked
    requires { InFile file.now table }
    ensures { result ≡ check_in (manner_of manner) file.now table }
{
    // A fixed array: there is no heap.
    let mut bits = [0usize; 10923];
    let stop = survey_all(file, table, &mut bits);
    check_surveyed(file, table, stop, &bits, manner)
}

// The check of the table at a pointer: opening, then 40 for the first item and its first broken rule.
#[tactic(auto, using(layout::proofs::OpenLaws::opened_in_file), unfolding(check_rules::specs::Rules::check_table, check_rules::specs::Rules::check_opened))]
pub fn check_table(file: &[u8], start: u32, end: u32, manner: Manner) -> Checked
    ensures { result ≡ check_table (manner_of manner) file.now start end }
{
    match open_table(file, start, end) {
        Err(why) => Checked::Refused(why),
        Ok(table) => check_open(file, table, manner),
    }
}
