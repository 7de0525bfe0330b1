// What the check answers.
use layout::refusal::Refusal;

// Each item keeps every rule, or the first that does not and the first rule that it breaks, or why the table does not open. Where the first item breaks
// rule 1: with what listing it refuses.
// No `Result`: of its four answers three are no refusal to check.
#[derive(Clone, Copy)]
pub enum Checked {
    Sound,
    Broken { rule: u32, item: usize },
    Unlisted { why: Refusal, item: usize },
    Refused(Refusal),
}
