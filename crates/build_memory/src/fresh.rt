// The fresh start.
ghost use Rattle.std.specs.Prelude.{◌≡◌, [], ◌∷◌, ◌≤◌, length};
ghost use Rattle.words.specs.Store.{put_at};
ghost use Rattle.build_memory.specs.Memory.{least_words, memory, outcome, fresh_start};

use crate::fields::{BUCKETS, EMPTY, HEADS_FROM, LEAST_WORDS, LENGTH, LINKS, LINKS_FROM};
use layout::refusal::Refusal;
use words::store::{fill, put};

// The least length of the words.
pub fn memory_words() -> usize
    ensures { result ≡ least_words }
{
    LEAST_WORDS
}

// Writes the header of an empty builder.
fn put_header(words: &mut [usize], room: usize)
    requires { least_words ≤ length words.old }
    ensures { words.new ≡ put_at words.old 0 (length words.old ∷ room ∷ 0 ∷ 0 ∷ 0 ∷ []) }
{
    let row = [words.len(), room, 0, 0, 0];
    put(words, LENGTH, &row);
}

// An empty builder, whatever the memory held: 29 where the words are too short.
#[tactic(auto, unfolding(crate::specs::Memory::fresh_start, crate::specs::Memory::fresh_words, words::specs::Choice::pick))]
pub fn fresh(words: &mut [usize], arena: &[u8]) -> Result<(), Refusal>
    ensures { outcome result (memory words.new arena.now) ≡ fresh_start words.old arena.now }
{
    if words.len() < LEAST_WORDS {
        return Err(Refusal::MemoryBroken);
    }
    put_header(words, arena.len());
    fill(words, HEADS_FROM, BUCKETS, EMPTY);
    fill(words, LINKS_FROM, LINKS, EMPTY);
    Ok(())
}
