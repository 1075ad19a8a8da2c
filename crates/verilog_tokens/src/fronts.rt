//! What begins at the front of bytes of a Verilog text.

ghost use Rattle.std.specs.Prelude.{◌≡◌, ◌≤◌, length, false, codes, ◌||◌, IfSome};
ghost use Rattle.std.specs.Char.{is_ascii_alphabetic};
ghost use Rattle.std.specs.Str.{bytes_eq};
ghost use Rattle.verilog_tokens.specs.Tokens as spec;

use crate::bytes_told::{begins_word, is_mark, is_symbol};
use lexer::{ByteClass, decimal_length, identifier_length, line_separator_length, run_length};

/// How many bytes end a comment, up to and with the first slash right behind a star.
fn comment_rest(bytes: &[u8]) -> Option<usize>
    ensures value { result ≡ spec.comment_rest false bytes.now }
    ensures within { IfSome result (λ n. n ≤ length bytes.now) }
{
    let mut star = false;
    for (at, byte) in bytes.iter().enumerate() {
        if star && *byte == b'/' {
            return Some(at + 1);
        }
        star = *byte == b'*';
    }
    None
}

/// How many bytes of a comment stand at the front of these, which begin one; none where it does not close.
fn block_length(bytes: &[u8]) -> usize
    ensures value { result ≡ spec.block_length bytes.now }
    ensures within { result ≤ length bytes.now }
{
    match bytes {
        [_, _, rest @ ..] => match comment_rest(rest) {
            Some(end) => 2 + end,
            None => 0,
        },
        _ => 0,
    }
}

/// Letters.
struct Letter;

impl ByteClass for Letter {
    ghost has = { is_ascii_alphabetic };

    #[inline(always)]
    fn contains(byte: u8) -> bool {
        byte.is_ascii_alphabetic()
    }
}

/// How many bytes of a separator stand at the front of these: a blank or a comment.
#[inline(always)]
pub fn separator_length(bytes: &[u8]) -> usize
    ensures value { result ≡ spec.separator_length bytes.now }
    ensures within { result ≤ length bytes.now }
{
    match bytes {
        [b'/', b'*', ..] => block_length(bytes),
        _ => line_separator_length(b'/', bytes),
    }
}

/// How many bytes of a sign stand at the front of these.
fn sign_length(bytes: &[u8]) -> usize
    ensures value { result ≡ spec.sign_length bytes.now }
    ensures within { result ≤ length bytes.now }
{
    match bytes {
        [b'&', b'&', b'&', ..] => 3,
        [b'=', b'>', ..] => 2,
        [b'=', ..] => 1,
        [b'/', b'/' | b'*', ..] => 0,
        [b'/', ..] => 1,
        _ => 0,
    }
}

/// Whether the time of a unit stands at the front of the bytes.
#[inline(always)]
fn begins_unit(bytes: &[u8]) -> bool
    ensures { result ≡ spec.begins_with bytes.now (codes "1ps") }
{
    matches!(bytes, [b'1', b'p', b's', ..])
}

/// Whether a bit stands at the front of the bytes.
#[inline(always)]
fn begins_bit(bytes: &[u8]) -> bool
    ensures { result ≡ (spec.begins_with bytes.now (codes "1'b0") || spec.begins_with bytes.now (codes "1'b1")) }
{
    matches!(bytes, [b'1', b'\'', b'b', b'0' | b'1', ..])
}

/// How many bytes of a number stand at the front of these.
fn number_length(bytes: &[u8]) -> usize
    ensures value { result ≡ spec.number_length bytes.now }
    ensures within { result ≤ length bytes.now }
{
    if begins_unit(bytes) {
        return 3;
    }
    if begins_bit(bytes) {
        return 4;
    }
    decimal_length(bytes)
}

/// How many bytes of a word stand at the front of these, where the first byte begins one.
fn word_length(bytes: &[u8]) -> usize
    ensures value { result ≡ spec.word_length bytes.now }
    ensures within { result ≤ length bytes.now }
{
    match bytes {
        [b'$' | b'`', rest @ ..] => 1 + run_length::<Letter>(rest),
        _ => identifier_length(bytes),
    }
}

/// How many bytes of the longest token stand at the front of these, in a table or outside. None where no token begins.
#[inline(always)]
pub fn token_length(in_table: bool, bytes: &[u8]) -> usize
    ensures value { result ≡ spec.token_length in_table bytes.now }
    ensures within { result ≤ length bytes.now }
{
    let Some(first) = bytes.first() else {
        return 0;
    };
    if in_table && is_symbol(*first) {
        1
    } else if is_mark(*first) {
        1
    } else if begins_word(*first) {
        word_length(bytes)
    } else if first.is_ascii_digit() {
        number_length(bytes)
    } else {
        sign_length(bytes)
    }
}

/// Whether these bytes are the word that opens a table.
#[inline(always)]
fn is_table(token: &[u8]) -> bool
    ensures { result ≡ bytes_eq token.now (codes "table") }
{
    matches!(token, [b't', b'a', b'b', b'l', b'e'])
}

/// Whether these bytes are the word that closes a table.
#[inline(always)]
fn is_end_of_table(token: &[u8]) -> bool
    ensures { result ≡ bytes_eq token.now (codes "endtable") }
{
    match token {
        [b'e', b'n', b'd', word @ ..] => is_table(word),
        _ => false,
    }
}

/// Whether a table is open after a token.
#[inline(always)]
pub fn is_open_after(in_table: bool, token: &[u8]) -> bool
    ensures { result ≡ spec.is_open_after in_table token.now }
{
    if is_table(token) {
        true
    } else if is_end_of_table(token) {
        false
    } else {
        in_table
    }
}
