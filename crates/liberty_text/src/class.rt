//! The bytes of a Liberty text outside texts and comments.

ghost use Rattle.std.specs.Prelude.{◌≡◌};
ghost use Rattle.liberty_text.specs.Scanner.{class_of};

use crate::token::TokenKind;

/// What a byte is outside texts and comments.
#[derive(Clone, Copy, PartialEq, Eq)]
pub enum Class {
    LineEnd,
    Blank,
    Mark(TokenKind),
    Quote,
    Backslash,
    WordByte,
    Bad,
}

/// What a byte is outside texts and comments.
#[inline(always)]
pub fn class_of(byte: u8) -> Class
    ensures { result ≡ class_of byte }
{
    match byte {
        b'\n' => Class::LineEnd,
        b' ' | b'\t' | b'\r' => Class::Blank,
        b'{' | b'}' | b'(' | b')' => Class::Mark(TokenKind::Brace(byte)),
        b':' => Class::Mark(TokenKind::Colon),
        b';' => Class::Mark(TokenKind::Semicolon),
        b',' => Class::Mark(TokenKind::Comma),
        b'"' => Class::Quote,
        b'\\' => Class::Backslash,
        b'!'..=b'~' => Class::WordByte,
        _ => Class::Bad,
    }
}
