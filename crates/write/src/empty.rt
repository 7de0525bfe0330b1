// The search for an empty key in a table and in those nested in it: a table and an item call each other, and the depth left falls.
ghost use Rattle.std.specs.Prelude.{◌≡◌, true, ◌<◌};
ghost use Rattle.key_hash.specs.Hash.{rule_of};
ghost use Rattle.build_memory.specs.Memory.{item_total};
ghost use Rattle.build_rules.specs.Valid.{fully_valid};
ghost use Rattle.write_numbers.specs.Roster.{state_of, Rostered};
ghost use Rattle.layout.specs.Limits.{most_tables};
ghost use Rattle.write.specs.Write.{has_empty};
ghost use Rattle.write.specs.Empty.{item_empty};

use build_memory::fields::{GUEST, KEY_SIZE, KIND, item_word};
use key_hash::hash::Form;
use layout::kind::TABLE_KIND;
use write_parts::numbered::{HEAD_WORDS, SLOTS_FROM};

// Whether a table has an empty key, as deep as `depth` goes.
#[cycle(has_empty_item_empty)]
pub fn has_empty(
    words: &[usize],
    arena: &[u8],
    roster: &[usize],
    table: usize,
    depth: usize,
    form: Form,
) -> bool
    requires arena_value { fully_valid words.now arena.now ≡ true }
    requires rostered { Rostered (rule_of form) words.now arena.now roster.now }
    requires table_lt_most_tables { table < most_tables }
    ensures { result ≡ has_empty (state_of words.now arena.now) depth table }
{
    if depth == 0 {
        return false;
    }
    let first = roster[HEAD_WORDS * table];
    let count = roster[HEAD_WORDS * table + 1];
    for k in 0..count {
        let item = roster[SLOTS_FROM + (first + k)];
        if item_empty(words, arena, roster, item, depth - 1, form) {
            return true;
        }
    }
    false
}

// Whether an item has the empty key, or holds a table with one.
#[cycle(has_empty_item_empty)]
fn item_empty(
    words: &[usize],
    arena: &[u8],
    roster: &[usize],
    item: usize,
    depth: usize,
    form: Form,
) -> bool
    requires arena_value { fully_valid words.now arena.now ≡ true }
    requires rostered { Rostered (rule_of form) words.now arena.now roster.now }
    requires item_bound { item < item_total words.now }
    ensures { result ≡ item_empty words.now arena.now depth item }
{
    if item_word(words, item, KEY_SIZE) == 0 {
        return true;
    }
    if item_word(words, item, KIND) != TABLE_KIND {
        return false;
    }
    let guest = item_word(words, item, GUEST);
    has_empty(words, arena, roster, guest, depth, form)
}
