//! What many languages have at the front of bytes.

ghost use Rattle.std.specs.Prelude.{◌≡◌, ◌+◌, ◌<◌, ◌≤◌, length, drop, MatchOption, IfSome};
ghost use Rattle.std.specs.List.{prefix_len};
ghost use Rattle.lexer.specs.Tokens as spec;

use crate::classes::{Blank, ByteClass, Digit, InLine, name_length, run_length};

/// How many digits a number may have.
pub(crate) const MOST_DIGITS: usize = 15;

/// The first offset in a text, from this one on, of a byte that is no space, tab or line end.
#[inline(always)]
pub fn behind_blanks(text: &[u8], at: usize) -> Option<usize>
    requires { at ≤ length text.now }
    ensures value { MatchOption result (at + prefix_len spec.is_blank (drop at text.now) ≡ length text.now)
        (λ next. next ≡ at + prefix_len spec.is_blank (drop at text.now)) }
    ensures within { IfSome result (λ next. next < length text.now) }
{
    for next in at..text.len() {
        if !Blank::contains(text[next]) {
            return Some(next);
        }
    }
    None
}

/// How many bytes of a blank, or of a comment of one line, stand at the front of these. Such a comment begins with the mark given
/// twice, and goes on to its line end.
pub fn line_separator_length(mark: u8, bytes: &[u8]) -> usize
    ensures value { result ≡ spec.line_separator_length mark bytes.now }
    ensures within { result ≤ length bytes.now }
{
    let Some(first) = bytes.first() else {
        return 0;
    };
    if Blank::contains(*first) {
        1
    } else if *first != mark {
        0
    } else if bytes.starts_with(&[mark, mark]) {
        run_length::<InLine>(bytes)
    } else {
        0
    }
}

/// How many bytes of a decimal number stand at the front of these: at most 15 digits.
pub fn decimal_length(bytes: &[u8]) -> usize
    ensures value { result ≡ spec.decimal_length bytes.now }
    ensures within { result ≤ length bytes.now }
{
    let length = run_length::<Digit>(bytes);
    if length <= MOST_DIGITS { length } else { 0 }
}

/// How many letters, digits and `_` stand at the front of the bytes, whatever the first byte is.
pub fn identifier_length(bytes: &[u8]) -> usize
    ensures value { result ≡ spec.identifier_length bytes.now }
    ensures within { result ≤ length bytes.now }
{
    match bytes.split_first() {
        None => 0,
        Some((_, rest)) => 1 + name_length(rest),
    }
}
