//! A few texts from outside: examples of the Liberty format and its corner cases.

use liberty_text::{
    Fixed, NumberFault, Stop, TextFault, Token, TokenKind, Unit, fixed, picoseconds, scan,
    text_value, tokens,
};
use std::alloc::Global;
use std::test::Fail;
use table_tests::{Row, all_hold};

/// A token of these places.
macro_rules! token {
    ($kind:expr, $at:literal, $end:literal, $line_before:literal) => {
        Token {
            kind: $kind,
            at: $at,
            end: $end,
            line_before: $line_before,
        }
    };
}

/// Whether a text has these tokens, and no fault.
fn has_tokens(alloc: Global, text: &[u8], wanted: &[Token]) -> bool {
    matches!(&tokens(alloc, text), Ok(found) if found.as_slice() == wanted)
}

/// A statement, and its tokens.
const STATEMENT: &[u8] = b"a/*\n*/ : \"x\\\n\" ;";

const STATEMENT_TOKENS: [Token; 4] = [
    token!(TokenKind::Word, 0, 1, false),
    token!(TokenKind::Colon, 7, 8, true),
    token!(TokenKind::Text, 9, 14, false),
    token!(TokenKind::Semicolon, 15, 16, false),
];

/// Whether the scan of a text finds these tokens and stops so.
fn scans_to(alloc: Global, text: &[u8], wanted: &[Token], stop: Stop) -> bool {
    matches!(&scan(alloc, text), Ok(found) if found.tokens.as_slice() == wanted && found.stop == stop)
}

/// A comment that its own slash does not close, behind this token.
const OPEN_COMMENT: &[u8] = b"//*/";

const SLASH: [Token; 1] = [token!(TokenKind::Word, 0, 1, false)];

/// Whether a text of Liberty's begins at this offset of a library and does not close.
fn has_open_text(alloc: Global, text: &[u8], at: usize) -> bool {
    matches!(tokens(alloc, text), Err(TextFault::OpenText(found)) if found == at)
}

/// A text that does not close.
const OPEN_TEXT: &[u8] = b"library (L) { cell (A) { area : \"1";

/// Whether the value of a text, written between its quotes, is this.
fn has_value(alloc: Global, text: &[u8], value: &[u8]) -> bool {
    matches!(&text_value(alloc, text), Ok(found) if found.as_slice() == value)
}

/// A text between its quotes, and its value.
const QUOTED: (&[u8], &[u8]) = (b"a \\ \n\\\"b\\c\nd", b"a \"b\\c d");

#[test]
fn texts_are_scanned(rt: HostRuntime) {
    let alloc = rt.alloc();
    assert!(rt; has_tokens(alloc, STATEMENT, &STATEMENT_TOKENS));
    assert!(rt; scans_to(alloc, OPEN_COMMENT, &SLASH, Stop::OpenComment(1)));
    assert!(rt; has_open_text(alloc, OPEN_TEXT, 32));
    assert!(rt; has_value(alloc, QUOTED.0, QUOTED.1));
}

/// A number in a unit, and its time in picoseconds, where it has one.
struct Time(&'static [u8], Unit, Option<u64>);

impl Row for Time {
    fn holds(&self, _alloc: Global) -> bool {
        matches!(fixed(self.0), Ok(number) if picoseconds(number, self.1) == self.2)
    }
}

const TIMES: [Time; 6] = [
    Time(b"0.0612", Unit::Ns1, Some(62)),
    Time(b"-0.012", Unit::Ns1, Some(0)),
    Time(b"+5.", Unit::Ps10, Some(50)),
    Time(b".5E-1", Unit::Ps100, Some(5)),
    Time(b"999999999999.999", Unit::Ns1, Some(999_999_999_999_999)),
    Time(b"1e15", Unit::Ps1, None),
];

/// A text, and the number as which it is read, or its fault.
struct ReadNumber(&'static [u8], Result<Fixed, NumberFault>);

impl Row for ReadNumber {
    fn holds(&self, _alloc: Global) -> bool {
        fixed(self.0) == self.1
    }
}

const NUMBERS: [ReadNumber; 4] = [
    ReadNumber(b"1e", Err(NumberFault::NotNumber)),
    ReadNumber(
        b"00.1234567890123456789e99",
        Err(NumberFault::TooManyDigits),
    ),
    ReadNumber(b"0e-31", Err(NumberFault::TooLarge)),
    ReadNumber(
        b"-1.0e-30",
        Ok(Fixed {
            mantissa: -10,
            exponent: -31,
        }),
    ),
];

#[test]
fn numbers_are_read(rt: HostRuntime) -> Result<(), Fail> {
    all_hold(rt.alloc(), &TIMES)?;
    all_hold(rt.alloc(), &NUMBERS)
}
