// A table as a view that borrows its file. Each function takes the view apart and calls functions over slices and numbers: no branch, no arithmetic,
// no loop. A view holds no proof that it is good: each call opens the table again, so a view of any numbers is harmless.
ghost use Rattle.std.specs.Prelude.{◌≡◌};
ghost use Rattle.read_find.specs.Find.{manner_of};
ghost use Rattle.check_rules.specs.Rules.{check_table};
ghost use Rattle.view.specs.Views.{OpenedOf, ValueOf, LayeredOf, NestedOf, ListedOf, ChildOf, KeyOf};

use check_rules::checked::Checked;
use layout::pointer::Pointer;
use layout::refusal::Refusal;
use layout::table::Table;
use read::layered::Source;
use read_find::manner::Manner;
use read_listing::children::Child;
use read_listing::listing::{Cursor, Valued, WrittenKey};
use view_part::part::{
    child_part, layered_from, layered_looked, layered_part, listed_part, nested_part, opened_part,
    opened_pointer, pointer_end, pointer_start, value_part,
};

// gvdb-rs: HashTable.
// A table of a lent file: the file, the pointer to the table, and the manner in which it is read.
#[derive(Clone, Copy)]
pub struct TableView<'a> {
    pub file: &'a [u8],
    pub start: u32,
    pub end: u32,
    pub manner: Manner,
}

// What opening answers, and the table.
#[derive(Clone, Copy)]
pub struct OpenedView<'a> {
    pub answer: Result<Table, Refusal>,
    pub table: TableView<'a>,
}

// What a lookup answers, and the value's bytes.
#[derive(Clone, Copy)]
pub struct ValueView<'a> {
    pub answer: Result<Pointer, Refusal>,
    pub bytes: &'a [u8],
}

// What a lookup over two tables answers, which of them did, and the value's bytes, of its file.
#[derive(Clone, Copy)]
pub struct LayeredView<'a> {
    pub answer: Result<Pointer, Refusal>,
    pub from: Source,
    pub bytes: &'a [u8],
}

// What a lookup answers, and the nested table.
#[derive(Clone, Copy)]
pub struct NestedView<'a> {
    pub answer: Result<Pointer, Refusal>,
    pub table: TableView<'a>,
}

// What value listing answers (its item, the next position), and the value's bytes.
#[derive(Clone, Copy)]
pub struct ListedView<'a> {
    pub answer: Valued,
    pub bytes: &'a [u8],
}

// What a listing of children answers (the child, the next position), and the child's fragment.
#[derive(Clone, Copy)]
pub struct ChildView<'a> {
    pub answer: Result<Child, Refusal>,
    pub fragment: &'a [u8],
}

// gvdb-rs: File::read_hash_table, HashTable::for_bytes.
// The table of a file at a pointer, to be read in a manner.
pub fn open_view(file: &[u8], start: u32, end: u32, manner: Manner) -> OpenedView<'_>
    ensures { OpenedOf file.entry start end manner result }
{
    let answer = layout::table::open_table(file, start, end);
    OpenedView {
        answer,
        table: TableView {
            file: opened_part(file, answer),
            start: opened_pointer(answer, start),
            end: opened_pointer(answer, end),
            manner,
        },
    }
}

impl<'a> TableView<'a> {
    // gvdb-rs: get_bytes.
    // The value of a key.
    pub fn value(self, key: &[u8]) -> ValueView<'a>
        ensures { ValueOf self.entry key.now result }
    {
        let answer = read::lookup::lookup_value(self.file, self.start, self.end, key, self.manner);
        ValueView {
            answer,
            bytes: value_part(self.file, answer),
        }
    }

    // The value of a key in this table, the owner's, or in the district's under it where this one answers 12.
    pub fn layered(self, district: TableView<'a>, key: &[u8]) -> LayeredView<'a>
        ensures { LayeredOf self.entry district.entry key.now result }
    {
        let layered = read::layered::lookup_layered(
            self.file,
            self.start,
            self.end,
            district.file,
            district.start,
            district.end,
            key,
            self.manner,
            district.manner,
        );
        LayeredView {
            answer: layered_looked(layered),
            from: layered_from(layered),
            bytes: layered_part(self.file, district.file, layered),
        }
    }

    // gvdb-rs: get_hash_table.
    // The nested table of a key, to be read in the same manner.
    pub fn nested(self, key: &[u8]) -> NestedView<'a>
        ensures { NestedOf self.entry key.now result }
    {
        let answer = read::lookup::lookup_table(self.file, self.start, self.end, key, self.manner);
        NestedView {
            answer,
            table: TableView {
                file: nested_part(self.file, answer),
                start: pointer_start(answer),
                end: pointer_end(answer),
                manner: self.manner,
            },
        }
    }

    // gvdb-rs: Values::next.
    // The first value at or after the cursor.
    pub fn next_value(self, cursor: Cursor) -> ListedView<'a>
        ensures { ListedOf self.entry cursor.at result }
    {
        let answer = cursor.next_value(self.file, self.start, self.end);
        ListedView {
            answer,
            bytes: listed_part(self.file, answer),
        }
    }

    // The child at the cursor of the container of a key.
    pub fn next_child(self, key: &[u8], cursor: Cursor) -> ChildView<'a>
        ensures { ChildOf self.entry key.now cursor.at result }
    {
        let answer = cursor.next_child(self.file, self.start, self.end, key, self.manner);
        ChildView {
            answer,
            fragment: child_part(self.file, answer),
        }
    }

    // gvdb-rs: Keys::next.
    // The key at the cursor, written to the front of `out`. A refusal writes nothing.
    pub fn next_key(self, cursor: Cursor, out: &mut [u8]) -> Result<WrittenKey, Refusal>
        ensures { KeyOf self.entry cursor.at out.old result out.new }
    {
        cursor.next_key(self.file, self.start, self.end, out)
    }

    // The check of the table.
    pub fn check(self) -> Checked
        ensures { result ≡ check_table (manner_of self.entry.manner) self.entry.file.now self.entry.start self.entry.end }
    {
        check_table::check::check_table(self.file, self.start, self.end, self.manner)
    }
}
