//! The names in a text over vectors, each with the bit that is written behind it, and what stands between them.
ghost use Rattle.std.specs.Prelude.{◌≡◌, ◌+◌, ◌<◌, ◌≤◌, IfOk, IfSome, length, map, option_map};
ghost use Rattle.std.specs.List.{prefix_len};
ghost use Rattle.std.specs.Char.{is_ascii_digit as is_digit};
ghost use Rattle.bool_functions.specs.Token.{is_word_byte as is_word_byte_of, begins_word as begins_word_of};
ghost use Rattle.bus_texts.specs.Parts as spec;
ghost use Rattle.bus_texts.specs.Parts.{shown};

use crate::numbers::digits_number;
use std::alloc::{AllocError, Global};

/// A part of a text: a name with its bit, where one is written, or what is none.
#[derive(Clone, Copy)]
pub(crate) struct Part<'a> {
    /// The part as it is written.
    pub(crate) written: &'a [u8],
    /// The name, empty where the part is none.
    pub(crate) name: &'a [u8],
    pub(crate) bit: Option<u16>,
    /// Whether a letter, a digit or `_` stands behind it.
    pub(crate) followed: bool,
}

/// Whether a byte is a letter, a digit or `_`.
fn is_word_byte(byte: u8) -> bool
    ensures { result ≡ is_word_byte_of byte }
{
    byte.is_ascii_alphanumeric() || byte == b'_'
}

/// Whether a text begins with a letter, a digit or `_`.
fn begins_word(text: &[u8]) -> bool
    ensures { result ≡ begins_word_of text.now }
{
    match text {
        [] => false,
        [first, ..] => is_word_byte(*first),
    }
}

/// Whether a name can begin with a byte.
fn begins_name(byte: u8) -> bool
    ensures { result ≡ spec.begins_name byte }
{
    is_word_byte(byte) && !byte.is_ascii_digit()
}

/// How many letters, digits and `_` stand at the front of a text.
fn word_length(text: &[u8]) -> usize
    ensures value { result ≡ prefix_len is_word_byte_of text.now }
    ensures within { result ≤ length text.now }
{
    for (at, byte) in text.iter().enumerate() {
        if !is_word_byte(*byte) {
            return at;
        }
    }
    text.len()
}

/// How many digits stand at the front of a text.
fn digits_length(text: &[u8]) -> usize
    ensures value { result ≡ prefix_len is_digit text.now }
    ensures within { result ≤ length text.now }
{
    for (at, byte) in text.iter().enumerate() {
        if !byte.is_ascii_digit() {
            return at;
        }
    }
    text.len()
}

/// Whether each byte is a letter, a digit or `_`.
fn is_word(text: &[u8]) -> bool
    ensures { result ≡ spec.is_word text.now }
{
    for byte in text {
        if !is_word_byte(*byte) {
            return false;
        }
    }
    true
}

/// Whether a text is a name.
pub(crate) fn is_identifier(text: &[u8]) -> bool
    ensures { result ≡ spec.is_identifier text.now }
{
    match text {
        [] => false,
        [first, others @ ..] => begins_name(*first) && is_word(others),
    }
}

/// The first bytes of a text, as many as this, where there is one and a bracket closes behind them.
fn closed_digits(text: &[u8], count: usize) -> Option<&[u8]>
    ensures value { option_map (λ digits. digits.now) result ≡ spec.closed_digits text.now count }
    ensures within { IfSome result (λ digits. length digits.now + 1 ≤ length text.now) }
{
    if 0 < count && count < text.len() && text[count] == b']' {
        Some(&text[..count])
    } else {
        None
    }
}

/// The digits of a bit in brackets, where one stands at the front.
fn digits_in_front(text: &[u8]) -> Option<&[u8]>
    ensures value { option_map (λ digits. digits.now) result ≡ spec.digits_in_front text.now }
    ensures within { IfSome result (λ digits. length digits.now + 2 ≤ length text.now) }
{
    let (first, others) = text.split_first()?;
    if *first == b'[' {
        closed_digits(others, digits_length(others))
    } else {
        None
    }
}

/// A part without name, of this many bytes.
fn plain_part(text: &[u8], n: usize) -> Part<'_>
    requires { n ≤ length text.now }
    ensures { shown result ≡ spec.plain_part text.now n }
{
    Part {
        written: &text[..n],
        name: &[],
        bit: None,
        followed: begins_word(&text[n..]),
    }
}

/// A name of this many bytes, with its bit.
fn name_part(text: &[u8], n: usize) -> Part<'_>
    requires { n ≤ length text.now }
    ensures { shown result ≡ spec.name_part text.now n }
{
    let name = &text[..n];
    let (end, bit) = match digits_in_front(&text[n..]) {
        None => (n, None),
        Some(digits) => (n + digits.len() + 2, digits_number(digits)),
    };
    Part {
        written: &text[..end],
        name,
        bit,
        followed: begins_word(&text[end..]),
    }
}

/// The part at the front of a text.
#[tactic(auto, using(crate::proofs::PartLemmas::first_some, crate::proofs::PartLemmas::first_within))]
fn first_part(text: &[u8]) -> Part<'_>
    requires { 0 < length text.now }
    ensures part { shown result ≡ spec.first_part text.now }
    ensures some { 0 < length result.written.now }
    ensures within { length result.written.now ≤ length text.now }
{
    let first = text[0];
    if begins_name(first) {
        name_part(text, word_length(text))
    } else if first.is_ascii_digit() {
        plain_part(text, digits_length(text))
    } else {
        plain_part(text, 1)
    }
}

/// The parts of a text, which make up the whole of it.
pub(crate) fn parts(alloc: Global, text: &[u8]) -> Result<Vec<Part<'_>>, AllocError>
    ensures { IfOk result (λ parts. map shown parts.items ≡ spec.parts_of text.now) }
{
    let mut parts = Vec::new(alloc);
    let mut at = 0;
    while at < text.len() {
        let part = first_part(&text[at..]);
        at += part.written.len();
        parts.push(part)?;
    }
    Ok(parts)
}
