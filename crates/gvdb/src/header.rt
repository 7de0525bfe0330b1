// The header of a file, and the number of this interface.
ghost use Rattle.std.specs.Prelude.{◌≡◌, length};
ghost use Rattle.file_header.specs.Answer.{header_laid_number};
ghost use Rattle.file_header.specs.Header.{read_header, header_laid, with_header};
ghost use Rattle.answers.specs.Header.{abi, order_of, headed_answer};

use answers::header::{GvdbHeader, header_laid_of, order_of};

// Goes up by one with each change of a function or a struct for C.
const ABI: u32 = 7;

// The number of this interface, which a header for C is held to.
#[unsafe(no_mangle)]
pub extern "C" fn gvdb_abi() -> u32
    ensures { result ≡ abi }
{
    ABI
}

#[unsafe(no_mangle)]
pub extern "C" fn gvdb_read_header(file: &[u8]) -> GvdbHeader
    ensures { result ≡ headed_answer (read_header file.now) }
{
    file_header::header::read_header(file).into()
}

// Lays a header into the first 24 bytes. A refusal writes nothing.
#[unsafe(no_mangle)]
pub extern "C" fn gvdb_lay_header(target: &mut [u8], big: u32, start: u32, end: u32) -> u32
    ensures said { result ≡ header_laid_number (header_laid (length target.old)) }
    ensures wrote { target.new ≡ with_header target.old (order_of big) start end }
{
    let order = order_of(big);
    header_laid_of(file_header::header::lay_header(target, order, start, end))
}
