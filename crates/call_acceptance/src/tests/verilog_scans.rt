//! Texts from outside: corner cases of the tokens of Verilog's subset.

use lexer::KeptSpan;
use std::alloc::{AllocError, Global};
use std::test::Fail;
use table_tests::{Row, all_hold};
use verilog_tokens::scan;

/// The tokens of a text, with a blank behind each.
fn spelled(alloc: Global, text: &[u8], tokens: &[KeptSpan]) -> Result<Vec<u8>, AllocError> {
    let mut joined = Vec::new(alloc);
    for token in tokens {
        let span = token.span();
        if let Some(bytes) = text.get(span.at..span.end) {
            joined.extend_from_slice(bytes)?;
        }
        joined.push(b' ')?;
    }
    Ok(joined)
}

/// Whether the tokens of a text, with a blank behind each, are these bytes, and its lexical fault is at this offset.
fn has_tokens(alloc: Global, text: &[u8], wanted: &[u8], fault: Option<usize>) -> bool {
    let Ok(found) = scan(alloc, text) else {
        return false;
    };
    match spelled(alloc, text, found.tokens.as_slice()) {
        Ok(joined) => joined.as_slice() == wanted && found.fault == fault,
        Err(_) => false,
    }
}

/// A text, its tokens with a blank behind each, and the offset of its lexical fault.
struct Scan(&'static [u8], &'static [u8], Option<usize>);

impl Row for Scan {
    fn holds(&self, alloc: Global) -> bool {
        has_tokens(alloc, self.0, self.1, self.2)
    }
}

const SCANS: [Scan; 17] = [
    // the longest token
    Scan(b"`timescale 1ps/1psx", b"`timescale 1ps / 1ps x ", None),
    Scan(
        b"(A=>B)=(1'b0&&&1,11ps",
        b"( A => B ) = ( 1'b0 &&& 1 , 11 ps ",
        None,
    ),
    Scan(b"$set_up2$", b"$set _up2 $ ", None),
    Scan(b"000000000000015", b"000000000000015 ", None),
    // the symbols of a table
    Scan(
        b"table\n01?:1:1;xendtable xr;",
        b"table 0 1 ? : 1 : 1 ; x endtable xr ; ",
        None,
    ),
    Scan(
        b"table(01)-*BReg 23X",
        b"table ( 0 1 ) - * B R eg 23 X ",
        None,
    ),
    Scan(b"table1 10", b"table1 10 ", None),
    // blanks and comments
    Scan(b"a/**/b//c\n\td/*\r\n*/ //", b"a b d ", None),
    Scan(b"/ /*/*/ 7", b"/ 7 ", None),
    Scan(b"", b"", None),
    // lexical faults
    Scan(b"1'b2", b"1 ", Some(1)),
    Scan(b"a /*/", b"a ", Some(2)),
    Scan(b"= 0000000000000001", b"= ", Some(2)),
    Scan(b"x&&y", b"x ", Some(1)),
    Scan(b"module\r\n", b"module ", Some(6)),
    Scan(b"table ? endtable ?", b"table ? endtable ", Some(17)),
    Scan(b"table 1'b0", b"table 1 ", Some(7)),
];

#[test]
fn texts_have_tokens_and_faults(rt: HostRuntime) -> Result<(), Fail> {
    all_hold(rt.alloc(), &SCANS)
}
