// The rules behind refusal 29 that a write judges, all of them.
ghost use Rattle.std.specs.Prelude.{◌≡◌, ◌<◌, ◌≤◌, length, eqb};
ghost use Rattle.std.specs.List.{list_all};
ghost use Rattle.words.specs.Below.{all_below};
ghost use Rattle.layout.specs.Item.{no_item};
ghost use Rattle.build_memory.specs.Memory.{least_words, links, item_total, Valid};
ghost use Rattle.build_rules.specs.Valid.{item_valid, link_empty, fully_valid};

use crate::guest::{guest_valid, held_once};
use crate::item::{key_valid, parent_valid, ranges_valid};
use build_memory::fields::{EMPTY, ITEMS, LEAST_WORDS, LINKS_FROM};
use build_memory::rules::judge;

// Whether item i keeps the rules that do not ask what other items hold.
#[tactic(auto, using(crate::proofs::ValidLaws::ranges_table), unfolding(crate::specs::Valid::item_valid))]
fn item_valid(words: &[usize], arena: &[u8], i: usize) -> bool
    requires { Valid words.now (length arena.now) × (i < item_total words.now) }
    ensures { result ≡ item_valid words.now arena.now i }
{
    if !ranges_valid(words, i) {
        return false;
    }
    let key = key_valid(words, arena, i);
    let parent = parent_valid(words, arena, i);
    key & (parent & guest_valid(words, i))
}

// Whether all items do.
#[tactic(auto, using(words::proofs::BelowLaws::all_turn), unfolding(words::specs::Below::all_below))]
fn items_valid(words: &[usize], arena: &[u8]) -> bool
    requires { Valid words.now (length arena.now) }
    ensures { result ≡ all_below (item_valid words.now arena.now) (item_total words.now) }
{
    for i in 0..words[ITEMS] {
        if !item_valid(words, arena, i) {
            return false;
        }
    }
    true
}

// Whether all words of a row hold the empty mark.
fn all_empty(row: &[usize]) -> bool
    ensures { result ≡ list_all (λ w. eqb w no_item) row.now }
{
    row.iter().all(|&w| w == EMPTY)
}

// Whether all links hold the empty mark.
#[tactic(auto, using(crate::proofs::ValidLaws::links_row))]
fn links_empty(words: &[usize]) -> bool
    requires { least_words ≤ length words.now }
    ensures { result ≡ all_below (link_empty words.now) links }
{
    all_empty(&words[LINKS_FROM..LEAST_WORDS])
}

// Whether the memory keeps all rules behind 29.
#[tactic(auto, using(build_memory::proofs::MemoryLaws::valid_facts, crate::proofs::ValidLaws::guests_few), unfolding(crate::specs::Valid::fully_valid))]
pub fn judge_fully(words: &[usize], arena: &[u8]) -> bool
    ensures { result ≡ fully_valid words.now arena.now }
{
    if !judge(words, arena) {
        return false;
    }
    if !items_valid(words, arena) {
        return false;
    }
    if !held_once(words) {
        return false;
    }
    links_empty(words)
}
