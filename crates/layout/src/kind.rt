// The three kinds of an item, and the byte of each in a file.
ghost use Rattle.std.specs.Prelude.{◌≡◌};
ghost use Rattle.layout.specs.Kind.{kind_byte, kind_known};

// The bytes, and the same as words.
pub const VALUE_BYTE: u8 = b'v';

pub const TABLE_BYTE: u8 = b'H';

pub const CONTAINER_BYTE: u8 = b'L';

pub const VALUE_KIND: usize = VALUE_BYTE as usize;

pub const TABLE_KIND: usize = TABLE_BYTE as usize;

pub const CONTAINER_KIND: usize = CONTAINER_BYTE as usize;

#[derive(Clone, Copy)]
pub enum Kind {
    Value,
    Table,
    Container,
}

// gvdb-rs: u8::from of a HashItemType.
// The byte of a kind: 'v', 'H', 'L'. No `From` for `u8`, for the reason of `refusal::number_of`.
pub fn byte_of(kind: Kind) -> u8
    ensures { result ≡ kind_byte kind }
{
    match kind {
        Kind::Value => VALUE_BYTE,
        Kind::Table => TABLE_BYTE,
        Kind::Container => CONTAINER_BYTE,
    }
}

// gvdb-rs: HashItemType::try_from, HashItem::typ.
// Whether a byte is that of a kind. No `TryFrom`: nobody asks which kind it is, and PROMISES and a uniqueness theorem name this.
pub fn kind_known(byte: u8) -> bool
    ensures { result ≡ kind_known byte }
{
    (byte == VALUE_BYTE) | ((byte == TABLE_BYTE) | (byte == CONTAINER_BYTE))
}
