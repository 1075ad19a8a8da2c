//! What begins at the front of bytes of a VHDL text.

ghost use Rattle.std.specs.Prelude.{◌≡◌, ◌≤◌, length, IfSome};
ghost use Rattle.vhdl_tokens.specs.Tokens as spec;

use crate::spelling::is_name;
use lexer::{byte_table, decimal_length, identifier_length};

macro_rules! mark {
    ($b:expr) => {
        $b == b'(' || $b == b')' || $b == b',' || $b == b';' || $b == b'.'
    };
}

/// Of each byte, whether it is a delimiter of one byte that begins no other.
static MARKS: [bool; 256] = byte_table!(mark);

/// Whether a byte is a delimiter of one byte that begins no other, by one look.
#[inline(always)]
fn is_mark(byte: u8) -> bool
    ensures { result ≡ spec.is_mark byte }
{
    MARKS[usize::from(byte)]
}

/// How many bytes end a string, up to and with its closing quotation mark, which stands before its line end.
fn string_rest(bytes: &[u8]) -> Option<usize>
    ensures value { result ≡ spec.string_rest bytes.now }
    ensures within { IfSome result (λ n. n ≤ length bytes.now) }
{
    for (at, byte) in bytes.iter().enumerate() {
        if *byte == b'"' {
            return Some(at + 1);
        }
        if *byte == b'\n' {
            return None;
        }
    }
    None
}

/// How many bytes of a string stand at the front of these, which begin with a quotation mark; none where it does not close.
fn string_length(bytes: &[u8]) -> usize
    ensures value { result ≡ spec.string_length bytes.now }
    ensures within { result ≤ length bytes.now }
{
    match bytes {
        [_, rest @ ..] => match string_rest(rest) {
            Some(end) => 1 + end,
            None => 0,
        },
        _ => 0,
    }
}

/// How many bytes of a character literal stand at the front of these, which begin with an apostrophe.
fn character_length(bytes: &[u8]) -> usize
    ensures value { result ≡ spec.character_length bytes.now }
    ensures within { result ≤ length bytes.now }
{
    match bytes {
        [_, inner, b'\'', ..] if inner.is_ascii_graphic() || *inner == b' ' => 3,
        _ => 0,
    }
}

/// How many bytes of a delimiter that is no mark of its own stand at the front of these.
fn sign_length(bytes: &[u8]) -> usize
    ensures value { result ≡ spec.sign_length bytes.now }
    ensures within { result ≤ length bytes.now }
{
    match bytes {
        [b':' | b'<' | b'/', b'=', ..] => 2,
        [b'=', b'>', ..] => 2,
        [b':' | b'=', ..] => 1,
        _ => 0,
    }
}

/// How many bytes of the longest token stand at the front of these, where `last` is the token before, if there is one. None where
/// no token begins. Only an apostrophe asks whether the token before is a name.
#[inline(always)]
pub fn token_length(last: &[u8], bytes: &[u8]) -> usize
    ensures value { result ≡ spec.token_length (spec.is_name last.now) bytes.now }
    ensures within { result ≤ length bytes.now }
{
    let Some(first) = bytes.first() else {
        return 0;
    };
    if is_mark(*first) {
        1
    } else if *first == b'\'' {
        if is_name(last) {
            1
        } else {
            character_length(bytes)
        }
    } else if *first == b'"' {
        string_length(bytes)
    } else if first.is_ascii_alphabetic() {
        identifier_length(bytes)
    } else if first.is_ascii_digit() {
        decimal_length(bytes)
    } else {
        sign_length(bytes)
    }
}
