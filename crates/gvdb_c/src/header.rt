// The header of a file, and the number of this interface, for C.
ghost use Rattle.std.specs.Prelude.{◌≡◌, length};
ghost use Rattle.file_header.specs.Answer.{header_laid_number};
ghost use Rattle.file_header.specs.Header.{read_header, header_laid, with_header};
ghost use Rattle.answers.specs.Header.{abi, order_of, headed_answer};

use answers::header::GvdbHeader;

// The number of this interface, which a header for C is held to.
#[unsafe(no_mangle)]
pub extern "C" fn gvdb_abi() -> u32
    ensures { result ≡ abi }
{
    gvdb::header::gvdb_abi()
}

#[unsafe(no_mangle)]
pub extern "C" fn gvdb_read_header(file: &[u8]) -> GvdbHeader
    ensures { result ≡ headed_answer (read_header file.now) }
{
    gvdb::header::gvdb_read_header(file)
}

// Lays a header into the first 24 bytes. A refusal writes nothing.
#[unsafe(no_mangle)]
pub extern "C" fn gvdb_lay_header(target: &mut [u8], big: u32, start: u32, end: u32) -> u32
    ensures said { result ≡ header_laid_number (header_laid (length target.old)) }
    ensures wrote { target.new ≡ with_header target.old (order_of big) start end }
{
    gvdb::header::gvdb_lay_header(target, big, start, end)
}
