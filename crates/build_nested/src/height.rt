// The height of a table: one more than the greatest height that it holds.
ghost use Rattle.std.specs.Prelude.{◌≡◌, ◌≤◌, ◌<◌, length};
ghost use Rattle.layout.specs.Limits.{most_items};
ghost use Rattle.build_memory.specs.Memory.{least_words, item_total};
ghost use Rattle.build_nested.specs.Nest.{held_at, held_height};

use build_memory::fields::{GUEST, HEIGHT, ITEMS, KIND, TABLE, item_word, table_word};
use layout::kind::TABLE_KIND;
use layout::limits::MOST_TABLES;

// The height of the table that item i holds, where it is an item of the table that holds one; else 0.
#[tactic(auto, unfolding(crate::specs::Nest::held_at, words::specs::Choice::pick))]
fn held_at(words: &[usize], table: usize, i: usize) -> usize
    requires { (least_words ≤ length words.now) × (i < most_items) }
    ensures { result ≡ held_at words.now table i }
{
    if item_word(words, i, TABLE) != table {
        return 0;
    }
    if item_word(words, i, KIND) != TABLE_KIND {
        return 0;
    }
    let guest = item_word(words, i, GUEST);
    if MOST_TABLES <= guest {
        return 0;
    }
    table_word(words, guest, HEIGHT)
}

// The greatest height of the tables that a table holds, or 0.
#[tactic(auto, unfolding(crate::specs::Nest::held_height, model::specs::Builder::most, words::specs::Choice::pick))]
pub fn held_height(words: &[usize], table: usize) -> usize
    requires { (least_words ≤ length words.now) × (item_total words.now ≤ most_items) }
    ensures { result ≡ held_height words.now table }
{
    let mut most = 0;
    for i in 0..words[ITEMS] {
        most = most.max(held_at(words, table, i));
    }
    most
}
