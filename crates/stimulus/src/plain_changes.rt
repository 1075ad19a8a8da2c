//! A change as it is mostly written: one space behind the time, one behind the pin, a value of one byte and a line feed. Each
//! byte of such a line is looked at once.
ghost use Rattle.std.specs.Prelude.{◌≡◌, nat_le, position, IfSome};
ghost use Rattle.stimulus.specs.NextLine.{IsWordAhead, IsTimeAhead, IsByteAhead, IsChangeAhead};

use crate::catalog::{Catalog, PinFound};
use crate::context::Context;
use crate::line_meanings::{MAX_CHANGES, is_later, value_of};
use crate::times::{MAX_DIGITS, is_digit, with_digit};
use cell_machine::Change;

/// Where the first byte that is not above the space stands.
fn solid_end(text: &[u8]) -> Option<usize>
    ensures { result ≡ position (λ byte. nat_le byte 32) text.now }
{
    text.iter().position(|byte| *byte <= b' ')
}

/// The word at the head of a text that ends at a space, and what stands behind the space.
fn word_ahead(text: &[u8]) -> Option<(&[u8], &[u8])>
    ensures { IfSome result (λ found. IsWordAhead text.now found.0.now found.1.now) }
{
    let end = solid_end(text)?;
    if end == 0 || text[end] != b' ' {
        return None;
    }
    Some((&text[..end], &text[end + 1..]))
}

/// The time at the head of a text whose word ends at a space, and what stands behind the space.
fn time_ahead(text: &[u8]) -> Option<(u64, &[u8])>
    ensures { IfSome result (λ found. IsTimeAhead text.now found.0 found.1.now) }
{
    let mut time: u64 = 0;
    for end in 0..text.len().min(MAX_DIGITS + 1) {
        let byte = text[end];
        if !is_digit(byte) {
            if end == 0 || byte != b' ' {
                return None;
            }
            return Some((time, &text[end + 1..]));
        }
        time = with_digit(time, byte);
    }
    None
}

/// The word of one byte at the head of a text that ends at a line feed, and what stands behind the line feed.
fn byte_ahead(text: &[u8]) -> Option<(&[u8], &[u8])>
    ensures { IfSome result (λ found. IsByteAhead text.now found.0.now found.1.now) }
{
    if text.len() < 2 || text[0] <= b' ' || text[1] != b'\n' {
        return None;
    }
    Some((&text[..1], &text[2..]))
}

/// The change that the first line of a text says, and what stands behind the line, where the line is such a one and not bad.
pub(crate) fn plain_change<'a, C: Catalog>(
    catalog: &C,
    context: Context,
    text: &'a [u8],
) -> Option<(Change, &'a [u8])>
    ensures { IfSome result (λ found. IsChangeAhead (C.listing catalog.now) context text.now found.0 found.1.now) }
{
    let cell = context.cell?;
    if context.changes >= MAX_CHANGES {
        return None;
    }
    let (at, after_time) = time_ahead(text)?;
    let (name, after_pin) = word_ahead(after_time)?;
    let (value, rest) = byte_ahead(after_pin)?;
    let PinFound::Input(pin) = catalog.pin(cell, name) else {
        return None;
    };
    let to = value_of(value)?;
    if !is_later(at, context.last) {
        return None;
    }
    Some((Change { at, pin, to }, rest))
}
