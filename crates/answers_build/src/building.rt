// What the calls on a builder answer, as numbers.
// `started_of` and `replaced_of` are functions: no `From` can stand here between types that other crates declare.
ghost use Rattle.std.specs.Prelude.{◌≡◌};
ghost use Rattle.build_memory.specs.Answer.{started_number};
ghost use Rattle.build_values.specs.Answer.{inserted_kind};
ghost use Rattle.answers_build.specs.Building.{added_answer, counted_answer, inserted_answer};

use layout::kind::{Kind, byte_of};
use layout::refusal::{Refusal, bad_at, number_of};

// A new table's number.
#[repr(C)]
#[derive(Clone, Copy, Default)]
pub struct GvdbTable {
    pub number: u32,
    pub table: u32,
}

// What an insert replaced: 0 for a new key, else the byte of the old kind; with 8 where the given key is bad.
#[repr(C)]
#[derive(Clone, Copy, Default)]
pub struct GvdbInserted {
    pub number: u32,
    pub replaced: u32,
    pub at: usize,
}

// How many items a table has, containers included.
#[repr(C)]
#[derive(Clone, Copy, Default)]
pub struct GvdbCount {
    pub number: u32,
    pub count: u32,
}

#[tactic(auto, unfolding(build_memory::specs::Answer::started_number))]
pub fn started_of(started: Result<(), Refusal>) -> u32
    ensures { result ≡ started_number started }
{
    match started {
        Ok(()) => 0,
        Err(why) => number_of(why),
    }
}

impl From<Result<u32, Refusal>> for GvdbTable {
    ghost from_gives = { λ added answer. answer ≡ added_answer added };

    #[tactic(auto, unfolding(crate::specs::Building::added_answer, build_tables::specs::Answer::added_number, build_tables::specs::Answer::added_table))]
    fn from(added: Result<u32, Refusal>) -> Self {
        match added {
            Ok(table) => Self { number: 0, table },
            Err(why) => Self {
                number: number_of(why),
                ..Self::default()
            },
        }
    }
}

// 0 for a new key, else the byte of the kind that was replaced.
#[tactic(auto, unfolding(build_values::specs::Answer::inserted_kind))]
fn replaced_of(old: Option<Kind>) -> u32
    ensures { result ≡ inserted_kind (Ok old) }
{
    match old {
        None => 0,
        Some(kind) => byte_of(kind).into(),
    }
}

impl From<Result<Option<Kind>, Refusal>> for GvdbInserted {
    ghost from_gives = { λ inserted answer. answer ≡ inserted_answer inserted };

    #[tactic(auto, unfolding(crate::specs::Building::inserted_answer, build_values::specs::Answer::inserted_number, build_values::specs::Answer::inserted_kind, build_values::specs::Answer::inserted_at))]
    fn from(inserted: Result<Option<Kind>, Refusal>) -> Self {
        match inserted {
            Ok(old) => Self {
                replaced: replaced_of(old),
                ..Self::default()
            },
            Err(why) => Self {
                number: number_of(why),
                at: bad_at(why),
                ..Self::default()
            },
        }
    }
}

impl From<Result<u32, Refusal>> for GvdbCount {
    ghost from_gives = { λ counted answer. answer ≡ counted_answer counted };

    #[tactic(auto, unfolding(crate::specs::Building::counted_answer, build_tables::specs::Answer::counted_number, build_tables::specs::Answer::counted_items))]
    fn from(counted: Result<u32, Refusal>) -> Self {
        match counted {
            Ok(count) => Self { number: 0, count },
            Err(why) => Self {
                number: number_of(why),
                ..Self::default()
            },
        }
    }
}
