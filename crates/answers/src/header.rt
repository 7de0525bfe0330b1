// What the two calls on a header answer, as numbers, and the byte order that a number names.
// `big_of`, `order_of` and `header_laid_of` are functions: no `From` can stand here between types that other crates declare.
ghost use Rattle.std.specs.Prelude.{◌≡◌};
ghost use Rattle.file_header.specs.Answer.{order_number, header_laid_number};
ghost use Rattle.answers.specs.Header.{order_of, headed_answer};

use file_header::header::{ByteOrder, Header};
use layout::refusal::{Refusal, number_of};

// The byte order of the values, 0 little and 1 big, and the root pointer.
#[repr(C)]
#[derive(Clone, Copy, Default)]
pub struct GvdbHeader {
    pub number: u32,
    pub big: u32,
    pub start: u32,
    pub end: u32,
}

fn big_of(order: ByteOrder) -> u32
    ensures { result ≡ order_number order }
{
    match order {
        ByteOrder::Little => 0,
        ByteOrder::Big => 1,
    }
}

// 0 is little, every other number big.
#[tactic(auto, unfolding(crate::specs::Header::order_of, words::specs::Choice::pick))]
pub fn order_of(big: u32) -> ByteOrder
    ensures { result ≡ order_of big }
{
    if big == 0 {
        ByteOrder::Little
    } else {
        ByteOrder::Big
    }
}

impl From<Result<Header, Refusal>> for GvdbHeader {
    ghost from_gives = { λ headed answer. answer ≡ headed_answer headed };

    #[tactic(auto, unfolding(crate::specs::Header::headed_answer, file_header::specs::Answer::headed_number, file_header::specs::Answer::headed_order, file_header::specs::Answer::headed_pointer))]
    fn from(headed: Result<Header, Refusal>) -> Self {
        match headed {
            Ok(Header { order, start, end }) => Self {
                number: 0,
                big: big_of(order),
                start,
                end,
            },
            Err(why) => Self {
                number: number_of(why),
                ..Self::default()
            },
        }
    }
}

#[tactic(auto, unfolding(file_header::specs::Answer::header_laid_number))]
pub fn header_laid_of(laid: Result<(), Refusal>) -> u32
    ensures { result ≡ header_laid_number laid }
{
    match laid {
        Ok(()) => 0,
        Err(why) => number_of(why),
    }
}
