// The rules behind refusal 29 that every call judges.
ghost use Rattle.std.specs.Prelude.{◌≡◌, length};
ghost use Rattle.build_memory.specs.Memory.{valid};

use crate::fields::{ITEMS, LEAST_WORDS, LENGTH, ROOM, TABLES, USED};
use layout::limits::{MOST_ITEMS, MOST_TABLES};

// Whether the lent memory keeps them.
pub fn judge(words: &[usize], arena: &[u8]) -> bool
    ensures { result ≡ valid words.now (length arena.now) }
{
    if words.len() < LEAST_WORDS {
        return false;
    }
    if words[LENGTH] != words.len() {
        return false;
    }
    if words[ROOM] != arena.len() {
        return false;
    }
    let few = (words[TABLES] <= MOST_TABLES) & (words[ITEMS] <= MOST_ITEMS);
    few & (words[USED] <= arena.len())
}
