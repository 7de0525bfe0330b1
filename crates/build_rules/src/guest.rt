// The tables that items hold: specs/Valid.antt names each rule.
ghost use Rattle.std.specs.Prelude.{◌≡◌, ◌<◌, ◌≤◌, length};
ghost use Rattle.words.specs.Below.{all_below};
ghost use Rattle.layout.specs.Limits.{most_items, most_tables};
ghost use Rattle.build_memory.specs.Memory.{least_words, item_total, table_total, item_table};
ghost use Rattle.build_rules.specs.Valid.{height_limit, guest_placed, guest_valid, held_once, GuestsFew};

use build_memory::fields::{
    GUEST, HEIGHT, ITEMS, KIND, PLACED, TABLE, TABLES, item_word, table_word,
};
use layout::kind::TABLE_KIND;
use layout::limits::{DEEPEST, MOST_TABLES};

// The height that no table held by table t may reach.
#[tactic(auto, unfolding(crate::specs::Valid::height_limit, words::specs::Choice::pick))]
fn height_limit(words: &[usize], t: usize) -> usize
    requires { (least_words ≤ length words.now) × (t < most_tables) }
    ensures { result ≡ height_limit words.now t }
{
    if table_word(words, t, PLACED) == 0 {
        return DEEPEST;
    }
    table_word(words, t, HEIGHT)
}

// Whether the guest of table t is known, placed and lower than it.
#[tactic(auto, unfolding(crate::specs::Valid::guest_placed))]
fn guest_placed(words: &[usize], t: usize, guest: usize) -> bool
    requires { (least_words ≤ length words.now) × (t < most_tables) × (table_total words.now ≤ most_tables) }
    ensures { result ≡ guest_placed words.now t guest }
{
    if words[TABLES] <= guest {
        return false;
    }
    let placed = table_word(words, guest, PLACED) != 0;
    let height = table_word(words, guest, HEIGHT);
    placed & ((1 <= height) & (height < height_limit(words, t)))
}

// Whether item i, of a table that is known, holds no table, or one as it should be.
#[tactic(auto, unfolding(crate::specs::Valid::guest_valid))]
pub fn guest_valid(words: &[usize], i: usize) -> bool
    requires least_words_in_bounds { (least_words ≤ length words.now) × (i < most_items) × (table_total words.now ≤ most_tables) }
    requires i_bound { item_table words.now i < table_total words.now }
    ensures { result ≡ guest_valid words.now i }
{
    if item_word(words, i, KIND) != TABLE_KIND {
        return true;
    }
    guest_placed(
        words,
        item_word(words, i, TABLE),
        item_word(words, i, GUEST),
    )
}

// Whether no table is held twice: a flag for each table that was met.
pub fn held_once(words: &[usize]) -> bool
    requires { (least_words ≤ length words.now) × (item_total words.now ≤ most_items) × GuestsFew words.now }
    ensures { result ≡ all_below (held_once words.now) (item_total words.now) }
{
    // A fixed array, one flag for each table that there may be: there is no heap.
    let mut met = [false; MOST_TABLES];
    for i in 0..words[ITEMS] {
        if item_word(words, i, KIND) == TABLE_KIND {
            let guest = item_word(words, i, GUEST);
            if met[guest] {
                return false;
            }
            met[guest] = true;
        }
    }
    true
}
