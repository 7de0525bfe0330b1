// Where the words of a roster stand: specs/Roster.antt says what each holds. Its tables and its slots stand as those of a numbered table.
// Flat words in fixed memory: there is no heap, and `Rostered` goes by them.
use layout::limits::MOST_ITEMS;
use write_parts::numbered::SLOTS_FROM;

pub const INDICES_FROM: usize = SLOTS_FROM + MOST_ITEMS;

pub const BUCKETS_FROM: usize = INDICES_FROM + MOST_ITEMS;

pub const ROSTER_SIZE: usize = BUCKETS_FROM + MOST_ITEMS;
