// The header of a file: its first 24 bytes, with the byte order of the values and the pointer to the root table.
ghost use Rattle.std.specs.Prelude.{◌≡◌, ◌++◌, ◌≤◌, length};
ghost use Rattle.words.specs.Field.{spelled};
ghost use Rattle.words.specs.Store.{put_at};
ghost use Rattle.layout.specs.Sizes.{header_size};
ghost use Rattle.file_header.specs.Header.{signature, versioned, read_header, header_laid, with_header};

use layout::limits::LONGEST_FILE;
use layout::refusal::Refusal;
use layout::sizes::HEADER_SIZE;
use words::field::{long_at, put_word, word_at};

// "GVariant" and "raVGtnai", each as the number that its eight bytes spell.
const LITTLE: u64 = 0x746E_6169_7261_5647;

const BIG: u64 = 0x6961_6E74_4756_6172;

// The byte order of a file's values.
#[derive(Clone, Copy)]
pub enum ByteOrder {
    Little,
    Big,
}

// What a header says: the byte order of the values, and the pointer to the root table, which is not judged here.
#[derive(Clone, Copy)]
pub struct Header {
    pub order: ByteOrder,
    pub start: u32,
    pub end: u32,
}

// A header whose signature is known: 19, or the root pointer.
#[tactic(auto, unfolding(crate::specs::Header::versioned, words::specs::Choice::pick))]
fn versioned_header(file: &[u8], order: ByteOrder) -> Result<Header, Refusal>
    requires { header_size ≤ length file.now }
    ensures { result ≡ versioned file.now order }
{
    if word_at(file, 8) != 0 {
        return Err(Refusal::VersionUnknown);
    }
    let start = word_at(file, 16);
    let end = word_at(file, 20);
    Ok(Header { order, start, end })
}

// gvdb-rs: Header::try_from_bytes. The header of a file: 1, 16, 17, 19, or what it says.
#[tactic(auto, unfolding(crate::specs::Header::read_header, words::specs::Choice::pick))]
pub fn read_header(file: &[u8]) -> Result<Header, Refusal>
    ensures { result ≡ read_header file.now }
{
    if LONGEST_FILE < file.len() {
        return Err(Refusal::FileTooLong);
    }
    if file.len() < HEADER_SIZE {
        return Err(Refusal::HeaderTooShort);
    }
    let found = long_at(file, 0);
    if found == LITTLE {
        return versioned_header(file, ByteOrder::Little);
    }
    if found == BIG {
        return versioned_header(file, ByteOrder::Big);
    }
    Err(Refusal::SignatureUnknown)
}

// Lays the signature of an order.
fn lay_signature(target: &mut [u8], order: ByteOrder)
    requires { header_size ≤ length target.old }
    ensures { target.new ≡ put_at target.old 0 (signature order) }
{
    match order {
        ByteOrder::Little => {
            put_word(target, 0, 0x7261_5647);
            put_word(target, 4, 0x746E_6169);
        }
        ByteOrder::Big => {
            put_word(target, 0, 0x4756_6172);
            put_word(target, 4, 0x6961_6E74);
        }
    }
}

// Lays what stands behind the signature: version 0, options 0, the root pointer.
fn lay_root(target: &mut [u8], start: u32, end: u32)
    requires { header_size ≤ length target.old }
    ensures { target.new ≡ put_at target.old 8 (spelled 4 0 ++ (spelled 4 0 ++ (spelled 4 start ++ spelled 4 end))) }
{
    put_word(target, 8, 0);
    put_word(target, 12, 0);
    put_word(target, 16, start);
    put_word(target, 20, end);
}

// gvdb-rs: Header::new. Lays the header of a file into its first 24 bytes: 1, 16. A refusal writes nothing.
#[tactic(auto, unfolding(crate::specs::Header::header_laid, words::specs::Choice::pick))]
pub fn lay_header(target: &mut [u8], order: ByteOrder, start: u32, end: u32) -> Result<(), Refusal>
    ensures said { result ≡ header_laid (length target.old) }
    ensures wrote { target.new ≡ with_header target.old order start end }
{
    if LONGEST_FILE < target.len() {
        return Err(Refusal::FileTooLong);
    }
    if target.len() < HEADER_SIZE {
        return Err(Refusal::HeaderTooShort);
    }
    lay_signature(target, order);
    lay_root(target, start, end);
    Ok(())
}
