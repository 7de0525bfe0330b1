// An item of a table, read byte by byte into the format's widths.
ghost use Rattle.std.specs.Prelude.{◌≡◌, ◌<◌, length};
ghost use Rattle.words.specs.Align.{alignment_of};
ghost use Rattle.layout.specs.Pointer.{open_pointer};
ghost use Rattle.layout.specs.Table.{InFile};
ghost use Rattle.layout.specs.Item.{item_at};

use crate::pointer::open_pointer;
use crate::refusal::Refusal;
use crate::sizes::RECORD_SIZE;
use crate::table::Table;
use words::align::Alignment;
use words::field::{half_at, word_at};

// The index that is no item: the parent of a root.
pub const NO_ITEM: u32 = 0xFFFF_FFFF;

// gvdb-rs: HashItem.
// The fields of one item. In the file, from its first byte on, numbers little endian:
//
//     +--------+-------+----------------------------------------------+
//     | offset | bytes |                                              |
//     +--------+-------+----------------------------------------------+
//     |      0 |     4 | `hash` of its joined key                     |  hash_value
//     |      4 |     4 | `parent`: its index, or 0xFFFFFFFF: a root   |  parent
//     |      8 |     4 | `key`: where its key fragment starts         |  key_start, key_ptr
//     |     12 |     2 | `size` of the fragment                       |  key_size
//     |     14 |     1 | `kind`: 'v', 'H' or 'L'                      |  typ
//     |     15 |     1 | unused                                       |
//     |     16 |     4 | `from`: where its value starts               |  value_ptr
//     |     20 |     4 | `to`: where its value ends                   |
//     +--------+-------+----------------------------------------------+
//
// To the right: the names that HashItem has for it. A value is its bytes ('v'), a nested table ('H'), or the indices of a container's children,
// a word each ('L'). `kind` is a byte and no `Kind`: a file may have any.
#[derive(Clone, Copy)]
pub struct Item {
    pub hash: u32,
    pub parent: u32,
    pub key: u32,
    pub size: u16,
    pub kind: u8,
    pub from: u32,
    pub to: u32,
}

// gvdb-rs: get_hash_item_for_index.
// The item at an index of a table that lies in the file.
#[tactic(auto, unfolding(crate::specs::Item::item_at))]
pub fn item_at(file: &[u8], table: Table, index: usize) -> Item
    requires { InFile file.now table × (index < table.count) }
    ensures { result ≡ item_at file.now table index }
{
    let at = table.items + RECORD_SIZE * index;
    Item {
        hash: word_at(file, at),
        parent: word_at(file, at + 4),
        key: word_at(file, at + 8),
        size: half_at(file, at + 12),
        kind: file[at + 14],
        from: word_at(file, at + 16),
        to: word_at(file, at + 20),
    }
}

// gvdb-rs: value_ptr.
// Whether an item's value pointer opens in the file.
pub fn open_value(file: &[u8], item: Item, alignment: Alignment) -> Result<(), Refusal>
    ensures { result ≡ open_pointer (length file.now) item.from item.to (alignment_of alignment) }
{
    open_pointer(file.len(), item.from as usize, item.to as usize, alignment)
}
