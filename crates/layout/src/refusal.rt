// Why a call is refused: one variant for each number of document 01. A text that is not UTF-8 is refused with the offset at which it is bad.
ghost use Rattle.std.specs.Prelude.{◌≡◌};
ghost use Rattle.layout.specs.Refusal.{number, bad_at};

#[derive(Clone, Copy)]
pub enum Refusal {
    FileTooLong,
    PointerOutside,
    Misaligned,
    TableTooShort,
    BloomTooLong,
    BucketsTooLong,
    ItemsUneven,
    KeyNotUtf8(usize),
    FragmentNotUtf8(usize),
    ParentOutside,
    ParentsEndless,
    KeyNotFound,
    OtherKind,
    BufferTooShort,
    PastTheLast,
    HeaderTooShort,
    SignatureUnknown,
    ListBroken,
    VersionUnknown,
    KeyTooLong,
    NotContainer,
    TooManyItems,
    ArenaFull,
    TableUnknown,
    TableInItself,
    NestedTooDeep,
    TooManyTables,
    SeparatorOutside,
    MemoryBroken,
    EmptyKey,
    ImageTooLong,
    HeadsTooFew,
    TooManyFilterWords,
    ReportTooShort,
    CheckBroken,
}

// The number that document 01 gives a refusal.
// No `From` for `u32`: docs/PROMISES.md names this function, and its uniqueness theorem does (`crates/promises`); two ways to one number are no plainer.
pub fn number_of(why: Refusal) -> u32
    ensures { result ≡ number why }
{
    match why {
        Refusal::FileTooLong => 1,
        Refusal::PointerOutside => 2,
        Refusal::Misaligned => 3,
        Refusal::TableTooShort => 4,
        Refusal::BloomTooLong => 5,
        Refusal::BucketsTooLong => 6,
        Refusal::ItemsUneven => 7,
        Refusal::KeyNotUtf8(_) => 8,
        Refusal::FragmentNotUtf8(_) => 9,
        Refusal::ParentOutside => 10,
        Refusal::ParentsEndless => 11,
        Refusal::KeyNotFound => 12,
        Refusal::OtherKind => 13,
        Refusal::BufferTooShort => 14,
        Refusal::PastTheLast => 15,
        Refusal::HeaderTooShort => 16,
        Refusal::SignatureUnknown => 17,
        Refusal::ListBroken => 18,
        Refusal::VersionUnknown => 19,
        Refusal::KeyTooLong => 20,
        Refusal::NotContainer => 21,
        Refusal::TooManyItems => 22,
        Refusal::ArenaFull => 23,
        Refusal::TableUnknown => 24,
        Refusal::TableInItself => 25,
        Refusal::NestedTooDeep => 26,
        Refusal::TooManyTables => 27,
        Refusal::SeparatorOutside => 28,
        Refusal::MemoryBroken => 29,
        Refusal::EmptyKey => 30,
        Refusal::ImageTooLong => 31,
        Refusal::HeadsTooFew => 32,
        Refusal::TooManyFilterWords => 33,
        Refusal::ReportTooShort => 34,
        Refusal::CheckBroken => 40,
    }
}

// Where the text is bad, in the refusals that say so.
pub fn bad_at(why: Refusal) -> usize
    ensures { result ≡ bad_at why }
{
    match why {
        Refusal::KeyNotUtf8(at) | Refusal::FragmentNotUtf8(at) => at,
        _ => 0,
    }
}
