//! What a quoted text stands for.

ghost use Rattle.std.specs.Prelude.{◌≡◌, ◌<◌, ◌≤◌, ◌+◌, length, IfOk, IfSome, [], ◌∷◌, OnOk, ◌++◌, None, false};
ghost use Rattle.std.specs.List.{list_all};
ghost use Rattle.liberty_text.specs.Idle.{stands_for_itself};
ghost use Rattle.liberty_text.specs.TextValue.{blank_line, piece, behind_backslash, begins_with_quote, value_of, HaveOneValue};
ghost use Rattle.liberty_text.specs.TextValue.{QuotesReadBack};

use crate::class::{Class, class_of};
use memchr::memchr2;
use sqlite_items::Items;
use std::alloc::{AllocError, Global};

/// How many bytes blanks and the line end behind them are, where these bytes begin with such.
fn blank_line(bytes: &[u8]) -> Option<usize>
    ensures value { result ≡ blank_line bytes.now }
    ensures within { IfSome result (λ n. n ≤ length bytes.now) }
{
    for (at, byte) in bytes.iter().enumerate() {
        match class_of(*byte) {
            Class::LineEnd => return Some(at + 1),
            Class::Blank => {}
            _ => return None,
        }
    }
    None
}

/// Appends what a byte before these stands for, and answers how many of them go with it.
fn push_piece(value: &mut Items<u8>, byte: u8, behind: &[u8]) -> Result<usize, AllocError>
    ensures value { OnOk result (value.new ≡ value.old ++ (piece byte behind.now).0) }
    ensures taken { IfOk result (λ taken. taken ≡ (piece byte behind.now).1) }
    ensures within { IfOk result (λ taken. taken ≤ length behind.now) }
{
    match byte {
        b'\n' => {
            value.push(b' ')?;
            Ok(0)
        }
        b'\\' => push_escape(value, behind),
        _ => {
            value.push(byte)?;
            Ok(0)
        }
    }
}

/// The same for a backslash.
fn push_escape(value: &mut Items<u8>, behind: &[u8]) -> Result<usize, AllocError>
    ensures value { OnOk result (value.new ≡ value.old
        ++ (behind_backslash (blank_line behind.now) (begins_with_quote behind.now)).0) }
    ensures taken { IfOk result (λ taken. taken ≡ (behind_backslash (blank_line behind.now) (begins_with_quote behind.now)).1) }
    ensures within { IfOk result (λ taken. taken ≤ length behind.now) }
{
    if let Some(taken) = blank_line(behind) {
        return Ok(taken);
    }
    if let [b'"', ..] = behind {
        value.push(b'"')?;
        return Ok(1);
    }
    value.push(b'\\')?;
    Ok(0)
}

/// Whether each byte stands for itself.
#[tactic(auto, using(crate::proofs::Firsts::plain_some, crate::proofs::Firsts::plain_none))]
fn is_plain(bytes: &[u8]) -> bool
    ensures { result ≡ list_all stands_for_itself bytes.now }
{
    match memchr2(b'\n', b'\\', bytes) {
        Some(_) => false,
        None => true,
    }
}

/// The value of a text token where each of the bytes between its quotes stands for itself: those bytes.
#[tactic(auto, using(crate::proofs::TextValues::value_of_plain))]
pub fn plain_value(bytes: &[u8]) -> Option<&[u8]>
    ensures plain { IfSome result (λ value. value.now ≡ value_of bytes.now) }
    ensures same { IfSome result (λ value. value.now ≡ bytes.now) }
    ensures other { result ≡ None → list_all stands_for_itself bytes.now ≡ false }
{
    if is_plain(bytes) { Some(bytes) } else { None }
}

/// The value of a text token, given the bytes between its quotes: a backslash with blanks and a line
/// end behind it vanishes, a line end without one stands for a space, `\"` for a double quote, and
/// any other byte for itself.
pub fn text_value(alloc: Global, bytes: &[u8]) -> Result<Items<u8>, AllocError>
    ensures { IfOk result (λ value. value ≡ value_of bytes.now) }
{
    if let Some(value) = plain_value(bytes) {
        return Ok(Items::from_slice(alloc, value)?);
    }
    let mut value = Items::new(alloc);
    let mut at = 0;
    while at < bytes.len() {
        let (_, behind) = bytes.split_at(at + 1);
        let taken = push_piece(&mut value, bytes[at], behind)?;
        at += 1 + taken;
    }
    Ok(value)
}

/// A law: the bytes between the quotes of a text stand for exactly one value, the one that
/// `text_value` finds.
#[tactic(auto, using(crate::proofs::Quoting::one_value))]
pub fn one_value(bytes: &[u8])
    ensures { HaveOneValue bytes.now }
{}

/// A law: a value that is written between quotes with a backslash before each double quote closes
/// there and is read back, exactly where it holds no line feed and does not end in a backslash.
pub fn quotes_read_back(value: &[u8])
    ensures { QuotesReadBack value.now }
{}
