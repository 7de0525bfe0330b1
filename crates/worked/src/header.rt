// The header of a file whose root table stands from 24 to 60, laid in both byte orders and read back, and each refusal.
use file_header::header::{ByteOrder, Header, lay_header, read_header};
use layout::refusal::number_of;
use std::io;

fn read(rt: &impl Print, file: &[u8]) -> io::Result<()> {
    match read_header(file) {
        Ok(Header { order, start, end }) => {
            match order {
                ByteOrder::Little => print!(rt; "little, root")?,
                ByteOrder::Big => print!(rt; "big, root")?,
            }
            say::place(rt, start, end)?;
        }
        Err(why) => print!(rt; "{}", number_of(why))?,
    }
    println!(rt;)
}

fn lay(rt: &impl Print, target: &mut [u8], order: ByteOrder) -> io::Result<()> {
    print!(rt; "header ")?;
    match lay_header(target, order, 24, 60) {
        Ok(()) => print!(rt; "laid "),
        Err(why) => print!(rt; "{}", number_of(why)),
    }
}

// Laid over bytes that are all 170, of which the last stays as it was.
fn there_and_back(rt: &impl Print, order: ByteOrder) -> io::Result<()> {
    let mut target = [170u8; 25];
    lay(rt, &mut target, order)?;
    say::bytes(rt, &target)?;
    read(rt, &target)
}

pub fn headers(rt: &impl Print) -> io::Result<()> {
    there_and_back(rt, ByteOrder::Little)?;
    there_and_back(rt, ByteOrder::Big)?;
    let mut short = [170u8; 23];
    lay(rt, &mut short, ByteOrder::Little)?;
    print!(rt; " ")?;
    say::bytes(rt, &short)?;
    println!(rt;)?;
    print!(rt; "23 bytes ")?;
    read(rt, b"GVariant\0\0\0\0\0\0\0\0\x18\0\0\0\x3c\0\0")?;
    print!(rt; "halves of two orders ")?;
    read(rt, b"GVartnai\0\0\0\0\0\0\0\0\x18\0\0\0\x3c\0\0\0")?;
    print!(rt; "version 1 ")?;
    read(rt, b"GVariant\x01\0\0\0\0\0\0\0\x18\0\0\0\x3c\0\0\0")?;
    print!(rt; "options 7 ")?;
    read(rt, b"raVGtnai\0\0\0\0\x07\0\0\0\x18\0\0\0\x3c\0\0\0")
}
