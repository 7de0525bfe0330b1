// A list: records one behind the other. A record is eleven words, lowest byte first, and two strings of bytes behind them: what is asked (its kind),
// the answer's number, start and end of a table's pointer, five numbers whose meaning is the kind's, and the lengths of the two strings.
ghost use Rattle.std.specs.Prelude.{◌<◌, length, IfSome};

use std::fmt;
use words::field::word_at;

// The bytes of a record's words.
const HEAD: usize = 44;

// What is asked.
#[derive(Clone, Copy)]
pub enum Kind {
    File,
    Open,
    Get,
    GetTable,
    NextKey,
    NextValue,
    Hash,
    FirstBad,
    Fresh,
    NewTable,
    Insert,
    InsertTable,
    ItemCount,
    Write,
}

// How many kinds there are.
pub const KINDS: usize = Kind::Write as usize + 1;

// A number that is no kind's.
#[derive(Clone, Copy)]
pub struct UnknownKind(pub u32);

impl TryFrom<u32> for Kind {
    type Error = UnknownKind;

    fn try_from(number: u32) -> Result<Self, UnknownKind> {
        match number {
            0 => Ok(Kind::File),
            1 => Ok(Kind::Open),
            2 => Ok(Kind::Get),
            3 => Ok(Kind::GetTable),
            4 => Ok(Kind::NextKey),
            5 => Ok(Kind::NextValue),
            6 => Ok(Kind::Hash),
            7 => Ok(Kind::FirstBad),
            8 => Ok(Kind::Fresh),
            9 => Ok(Kind::NewTable),
            10 => Ok(Kind::Insert),
            11 => Ok(Kind::InsertTable),
            12 => Ok(Kind::ItemCount),
            13 => Ok(Kind::Write),
            _ => Err(UnknownKind(number)),
        }
    }
}

impl fmt::Display for Kind {
    fn fmt<W: fmt::Write>(&self, f: &mut fmt::Formatter<W>) -> fmt::Result {
        f.write_str(match self {
            Kind::File => "file",
            Kind::Open => "open",
            Kind::Get => "get",
            Kind::GetTable => "get_table",
            Kind::NextKey => "next_key",
            Kind::NextValue => "next_value",
            Kind::Hash => "djb_hash",
            Kind::FirstBad => "first_bad",
            Kind::Fresh => "fresh",
            Kind::NewTable => "new_table",
            Kind::Insert => "insert",
            Kind::InsertTable => "insert_table",
            Kind::ItemCount => "item_count",
            Kind::Write => "write",
        })
    }
}

#[derive(Clone, Copy)]
pub struct Record<'a> {
    pub kind: Kind,
    pub number: u32,
    pub start: u32,
    pub end: u32,
    pub one: u32,
    pub two: u32,
    pub three: u32,
    pub four: u32,
    pub five: u32,
    pub first: &'a [u8],
    pub second: &'a [u8],
}

// The record at a list's front, and the list behind it; none where no whole record of a known kind stands there.
pub fn split_record(list: &[u8]) -> Option<(Record<'_>, &[u8])>
    ensures { IfSome result (λ r. length r.1.now < length list.now) }
{
    let (head, rest) = list.split_at_checked(HEAD)?;
    let kind = Kind::try_from(word_at(head, 0)).ok()?;
    let (first, rest) = rest.split_at_checked(word_at(head, 36) as usize)?;
    let (second, rest) = rest.split_at_checked(word_at(head, 40) as usize)?;
    let record = Record {
        kind,
        number: word_at(head, 4),
        start: word_at(head, 8),
        end: word_at(head, 12),
        one: word_at(head, 16),
        two: word_at(head, 20),
        three: word_at(head, 24),
        four: word_at(head, 28),
        five: word_at(head, 32),
        first,
        second,
    };
    Some((record, rest))
}
