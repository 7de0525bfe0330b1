// What a write answers, as numbers.
ghost use Rattle.std.specs.Prelude.{◌≡◌};
ghost use Rattle.answers_build.specs.Writing.{written_answer};

use layout::refusal::{Refusal, number_of};
use write::Image;

// The root pointer, and the image's length.
#[repr(C)]
#[derive(Clone, Copy, Default)]
pub struct GvdbImage {
    pub number: u32,
    pub start: u32,
    pub end: u32,
    pub length: u32,
}

impl From<Result<Image, Refusal>> for GvdbImage {
    ghost from_gives = { λ written answer. answer ≡ written_answer written };

    #[tactic(auto, unfolding(crate::specs::Writing::written_answer, crate::specs::Writing::written_image, write::specs::Write::written_number))]
    fn from(written: Result<Image, Refusal>) -> Self {
        match written {
            Ok(Image { start, end, length }) => Self {
                number: 0,
                start,
                end,
                length,
            },
            Err(why) => Self {
                number: number_of(why),
                ..Self::default()
            },
        }
    }
}
