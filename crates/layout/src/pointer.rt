// A pointer: the bytes of a file from a start up to an end, the start a multiple of an alignment.
ghost use Rattle.std.specs.Prelude.{◌≡◌};
ghost use Rattle.words.specs.Align.{alignment_of};
ghost use Rattle.layout.specs.Pointer.{open_pointer};

use crate::refusal::Refusal;
use words::align::{Alignment, bytes_of};

// Start and end of a stretch of a file.
#[derive(Clone, Copy)]
pub struct Pointer {
    pub start: u32,
    pub end: u32,
}

// gvdb-rs: Data::dereference, File::dereference.
// Whether the pointer from start to end opens in a file of `size` bytes: 2 for a start above the end, then 3, then 2 for an end past the file.
#[tactic(auto, unfolding(crate::specs::Pointer::open_pointer, words::specs::Choice::pick))]
pub fn open_pointer(
    size: usize,
    start: usize,
    end: usize,
    alignment: Alignment,
) -> Result<(), Refusal>
    ensures { result ≡ open_pointer size start end (alignment_of alignment) }
{
    let multiple = bytes_of(alignment);
    if end < start {
        return Err(Refusal::PointerOutside);
    }
    if start % multiple != 0 {
        return Err(Refusal::Misaligned);
    }
    if size < end {
        return Err(Refusal::PointerOutside);
    }
    Ok(())
}
