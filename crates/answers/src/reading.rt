// What a reader answers, as numbers: opening, lookups, listings.
// `opened_of` and `source_of` are functions: a trait's method takes no `requires`, and no `From` can stand here between types that other crates declare.
ghost use Rattle.std.specs.Prelude.{◌≡◌, ◌<◌, ◌^◌};
ghost use Rattle.read.specs.Answer.{source_number};
ghost use Rattle.answers.specs.Reading.{opened_count, opened_answer, looked_answer, layered_answer, listed_answer, valued_answer, childed_answer};

use layout::pointer::Pointer;
use layout::refusal::{Refusal, bad_at, number_of};
use layout::table::Table;
use read::layered::{Layered, Source};
use read_listing::children::Child;
use read_listing::listing::{Valued, WrittenKey};

// What a table opens as.
#[repr(C)]
#[derive(Clone, Copy, Default)]
pub struct GvdbOpened {
    pub number: u32,
    pub items: u32,
    pub buckets: u32,
    pub blooms: u32,
}

// A pointer into the file: to a value, or to a nested table; with 8 where the given key is bad.
#[repr(C)]
#[derive(Clone, Copy, Default)]
pub struct GvdbPlace {
    pub number: u32,
    pub start: u32,
    pub end: u32,
    pub at: usize,
}

// A pointer into the file of one of two tables, to a value, and the table that answered: 0 the owner's, 1 the district's, on a refusal too; with 8 where the given
// key is bad.
#[repr(C)]
#[derive(Clone, Copy)]
pub struct GvdbLayered {
    pub number: u32,
    pub from: u32,
    pub start: u32,
    pub end: u32,
    pub at: usize,
}

// A key that was written: its length, and the next position; with 9 where the stored fragment is bad.
#[repr(C)]
#[derive(Clone, Copy, Default)]
pub struct GvdbKey {
    pub number: u32,
    pub length: usize,
    pub next: usize,
    pub at: usize,
}

// A value: its pointer, its item, and the next position; item and position are told with 2 and 3 of its pointer too.
#[repr(C)]
#[derive(Clone, Copy, Default)]
pub struct GvdbValue {
    pub number: u32,
    pub start: u32,
    pub end: u32,
    pub index: usize,
    pub next: usize,
}

// A child of a container: the byte of its kind, the pointer of its fragment, its index, and the next position; with 8 where the given key is bad, with 9 where the
// fragment is.
#[repr(C)]
#[derive(Clone, Copy, Default)]
pub struct GvdbChild {
    pub number: u32,
    pub kind: u32,
    pub start: u32,
    pub end: u32,
    pub index: usize,
    pub next: usize,
    pub at: usize,
}

#[tactic(auto, unfolding(crate::specs::Reading::opened_answer, crate::specs::Reading::opened_count, layout::specs::Answer::opened_number))]
pub fn opened_of(opened: Result<Table, Refusal>) -> GvdbOpened
    requires { (opened_count (λ t. t.count) opened < 2 ^ 32) × (opened_count (λ t. t.buckets) opened < 2 ^ 32) × (opened_count (λ t. t.blooms) opened < 2 ^ 32) }
    ensures { result ≡ opened_answer opened }
{
    match opened {
        Ok(table) => GvdbOpened {
            number: 0,
            items: table.count as u32,
            buckets: table.buckets as u32,
            blooms: table.blooms as u32,
        },
        Err(why) => GvdbOpened {
            number: number_of(why),
            ..GvdbOpened::default()
        },
    }
}

impl From<Result<Pointer, Refusal>> for GvdbPlace {
    ghost from_gives = { λ looked answer. answer ≡ looked_answer looked };

    #[tactic(auto, unfolding(crate::specs::Reading::looked_answer, read::specs::Answer::looked_number, read::specs::Answer::looked_pointer, read::specs::Answer::looked_at))]
    fn from(looked: Result<Pointer, Refusal>) -> Self {
        match looked {
            Ok(Pointer { start, end }) => Self {
                start,
                end,
                ..Self::default()
            },
            Err(why) => Self {
                number: number_of(why),
                at: bad_at(why),
                ..Self::default()
            },
        }
    }
}

fn source_of(from: Source) -> u32
    ensures { result ≡ source_number from }
{
    match from {
        Source::Owner => 0,
        Source::District => 1,
    }
}

impl From<Layered> for GvdbLayered {
    ghost from_gives = { λ layered answer. answer ≡ layered_answer layered };

    #[tactic(auto, unfolding(crate::specs::Reading::layered_answer, crate::specs::Reading::looked_answer))]
    fn from(layered: Layered) -> Self {
        let place = GvdbPlace::from(layered.looked);
        Self {
            number: place.number,
            from: source_of(layered.from),
            start: place.start,
            end: place.end,
            at: place.at,
        }
    }
}

impl From<Result<WrittenKey, Refusal>> for GvdbKey {
    ghost from_gives = { λ listed answer. answer ≡ listed_answer listed };

    #[tactic(auto, unfolding(crate::specs::Reading::listed_answer, read_listing::specs::Answer::listed_number, read_listing::specs::Answer::listed_key, read_listing::specs::Answer::listed_at))]
    fn from(listed: Result<WrittenKey, Refusal>) -> Self {
        match listed {
            Ok(WrittenKey { size, next }) => Self {
                length: size,
                next: next.at,
                ..Self::default()
            },
            Err(why) => Self {
                number: number_of(why),
                at: bad_at(why),
                ..Self::default()
            },
        }
    }
}

impl From<Valued> for GvdbValue {
    ghost from_gives = { λ valued answer. answer ≡ valued_answer valued };

    #[tactic(auto, unfolding(crate::specs::Reading::valued_answer, read_listing::specs::Answer::valued_number, read_listing::specs::Answer::valued_pointer, read_listing::specs::Answer::valued_item))]
    fn from(valued: Valued) -> Self {
        match valued {
            Valued::Value {
                index,
                start,
                end,
                next,
            } => Self {
                number: 0,
                start,
                end,
                index,
                next: next.at,
            },
            Valued::Unopened { why, index, next } => Self {
                number: number_of(why),
                index,
                next: next.at,
                ..Self::default()
            },
            Valued::Refused(why) => Self {
                number: number_of(why),
                ..Self::default()
            },
        }
    }
}

impl From<Result<Child, Refusal>> for GvdbChild {
    ghost from_gives = { λ childed answer. answer ≡ childed_answer childed };

    #[tactic(auto, unfolding(crate::specs::Reading::childed_answer, read_listing::specs::Answer::childed_number, read_listing::specs::Answer::childed_kind, read_listing::specs::Answer::childed_pointer, read_listing::specs::Answer::childed_child, read_listing::specs::Answer::childed_at))]
    fn from(childed: Result<Child, Refusal>) -> Self {
        match childed {
            Ok(
                Child {
                    index,
                    kind,
                    start,
                    end,
                    next,
                },
            ) => Self {
                number: 0,
                kind: kind.into(),
                start,
                end,
                index,
                next: next.at,
                at: 0,
            },
            Err(why) => Self {
                number: number_of(why),
                at: bad_at(why),
                ..Self::default()
            },
        }
    }
}
