// The numbered table of a builder's memory, from its roster.
ghost use Rattle.std.specs.Prelude.{◌≡◌, true, ℕ, ◌<◌, length};
ghost use Rattle.key_hash.specs.Hash.{rule_of};
ghost use Rattle.build_memory.specs.Memory.{item_total};
ghost use Rattle.build_rules.specs.Valid.{fully_valid};
ghost use Rattle.write_parts.specs.Numbered.{SlotFits, numbered_size};
ghost use Rattle.write_numbers.specs.Roster.{Rostered, roster_size};
ghost use Rattle.layout.specs.Limits.{most_items};
ghost use Rattle.write_slots.specs.NumberedAs.{Clear, NumberedStart, NumberedSlots, Firsts, NumberedAs};

use crate::children::{FIRSTS_SIZE, order_siblings, put_children};
use crate::slot::put_slot;
use build_memory::fields::ITEMS;
use key_hash::hash::Form;
use layout::limits::MOST_ITEMS;
use words::store::put;
use write_parts::numbered::SLOTS_FROM;

// Puts the head, which is the roster's, into a clear numbered table.
fn start_numbered(roster: &[usize], numbered: &mut [usize])
    requires { (length roster.now ≡ roster_size) × (length numbered.old ≡ numbered_size) × Clear numbered.old }
    ensures { NumberedStart roster.now numbered.new }
{
    put(numbered, 0, &roster[..SLOTS_FROM]);
}

// Puts the slots of all items.
fn put_slots(
    words: &[usize],
    arena: &[u8],
    roster: &[usize],
    firsts: &[usize],
    numbered: &mut [usize],
    form: Form,
)
    requires arena_value { fully_valid words.now arena.now ≡ true }
    requires rostered { Rostered (rule_of form) words.now arena.now roster.now }
    requires firsts { Firsts firsts.now }
    requires numbered_len { (length numbered.old ≡ numbered_size) × ((s : ℕ) → s < most_items → SlotFits numbered.old arena.now s) }
    ensures { NumberedSlots form words.now arena.now roster.now firsts.now numbered.old numbered.new (item_total words.now) }
{
    for i in 0..words[ITEMS] {
        put_slot(words, roster, firsts, i, numbered, arena, form);
    }
}

// Fills a clear numbered table: head, child words, slots.
pub fn fill_numbered(
    words: &[usize],
    arena: &[u8],
    roster: &[usize],
    numbered: &mut [usize],
    form: Form,
)
    requires arena_value { fully_valid words.now arena.now ≡ true }
    requires rostered { Rostered (rule_of form) words.now arena.now roster.now }
    requires numbered_len { (length numbered.old ≡ numbered_size) × Clear numbered.old }
    ensures { NumberedAs (rule_of form) words.now arena.now numbered.new }
{
    let n = words[ITEMS];
    // Side by side, in fixed memory: `Siblings` has each as a list of its own.
    let mut order = [0usize; MOST_ITEMS];
    let mut firsts = [n; FIRSTS_SIZE];
    order_siblings(words, arena, &mut order, &mut firsts);
    start_numbered(roster, numbered);
    put_children(words, roster, &order, numbered);
    put_slots(words, arena, roster, &firsts, numbered, form);
}
