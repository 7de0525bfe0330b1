// What the check answers, as numbers.
ghost use Rattle.std.specs.Prelude.{◌≡◌};
ghost use Rattle.answers.specs.Checking.{checked_answer};

use check_rules::checked::Checked;
use layout::refusal::{Refusal, bad_at, number_of};

// 0 for a sound table; with 40 the rule broken, 1 to 6, and the item; with rule 1 the number that listing that item ends with, and with 9 where the
// stored fragment is bad.
#[repr(C)]
#[derive(Clone, Copy, Default)]
pub struct GvdbCheck {
    pub number: u32,
    pub rule: u32,
    pub item: usize,
    pub why: u32,
    pub at: usize,
}

impl From<Checked> for GvdbCheck {
    ghost from_gives = { λ checked answer. answer ≡ checked_answer checked };

    #[tactic(auto, unfolding(crate::specs::Checking::checked_answer, check_rules::specs::Answer::checked_number, check_rules::specs::Answer::checked_rule, check_rules::specs::Answer::checked_item, check_rules::specs::Answer::checked_why, check_rules::specs::Answer::checked_at))]
    fn from(checked: Checked) -> Self {
        let broken = number_of(Refusal::CheckBroken);
        match checked {
            Checked::Sound => Self::default(),
            Checked::Broken { rule, item } => Self {
                number: broken,
                rule,
                item,
                ..Self::default()
            },
            Checked::Unlisted { why, item } => Self {
                number: broken,
                rule: 1,
                item,
                why: number_of(why),
                at: bad_at(why),
            },
            Checked::Refused(why) => Self {
                number: number_of(why),
                ..Self::default()
            },
        }
    }
}
