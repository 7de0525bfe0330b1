// Each class of sequence that RFC 3629 allows or not, at its edges, and cut at the end of the text.
use std::io;
use text::utf8::{first_bad, is_utf8};

fn sequence(rt: &impl Print, s: &[u8]) -> io::Result<()> {
    print!(rt; "utf8 ")?;
    say::bytes(rt, s)?;
    if is_utf8(s) {
        println!(rt; "good")
    } else {
        println!(rt; "bad at {}", first_bad(s))
    }
}

// One byte, and two.
const SHORT: [&[u8]; 13] = [
    b"",
    b"\x00",
    b"\x7f",
    b"\x80",
    b"\xbf",
    b"c\xe9",
    b"\xc0\x80",
    b"\xc1\xbf",
    b"\xc2\x7f",
    b"\xc2\x80",
    b"\xdf\xbf",
    b"\xdf\xc0",
    b"ab\xc3",
];

// Three: overlong forms and surrogates are bad.
const THREE: [&[u8]; 11] = [
    b"\xe0\x9f\xbf",
    b"\xe0\xa0\x80",
    b"\xe1\x80\x80",
    b"\xec\xbf\xbf",
    b"\xed\x9f\xbf",
    b"\xed\xa0\x80",
    b"\xee\x80\x80",
    b"\xef\xbf\xbf",
    b"\xe2\x82\x2f",
    b"a\xe2\x82",
    b"a\xe2",
];

// Four: overlong forms, and numbers above 10FFFF.
const FOUR: [&[u8]; 11] = [
    b"\xf0\x8f\xbf\xbf",
    b"\xf0\x90\x80\x80",
    b"\xf3\xbf\xbf\xbf",
    b"\xf4\x8f\xbf\xbf",
    b"\xf4\x90\x80\x80",
    b"\xf5\x80\x80\x80",
    b"\xff",
    b"\xf0\x9f\x8c\x2f",
    b"a/\xf0\x9f\x8c",
    b"a/\xf0\x9f",
    b"\xf0\x9f\x8c\xb2/\xc3\xa9\x80",
];

pub fn sequences(rt: &impl Print) -> io::Result<()> {
    for bytes in SHORT {
        sequence(rt, bytes)?;
    }
    for bytes in THREE {
        sequence(rt, bytes)?;
    }
    for bytes in FOUR {
        sequence(rt, bytes)?;
    }
    Ok(())
}
