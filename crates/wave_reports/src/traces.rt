//! What a line of a trace tells.
ghost use Rattle.std.specs.Prelude.{◌≡◌, Some, is_some};
ghost use Rattle.std.specs.Option.{option_map, option_copied};
ghost use Rattle.std.specs.List.{list_all};
ghost use Rattle.wave_reports.specs.Pieces.{pieces_left};
ghost use Rattle.wave_reports.specs.Signs.{is_value as is_value_of, sign_of as sign_of_word};
ghost use Rattle.wave_reports.specs.Traces as spec;

use crate::pieces::{cut, first_word};
use crate::signs::{is_value, sign_of};
use lexer::number_of;

/// An input and the level that it is given.
#[derive(Clone, Copy)]
pub(crate) struct Input<'a> {
    pub name: &'a [u8],
    /// The byte of the level.
    pub value: u8,
}

/// What a line of a trace tells.
#[derive(Clone, Copy)]
pub(crate) struct Trace<'a> {
    /// `L`, `V` or `H`.
    pub tag: u8,
    /// The time in picoseconds, 0 at the start.
    pub at: u64,
    /// The change, where the line is not that of the start.
    pub change: Option<Input<'a>>,
    /// The words of the outputs and of the checks, with a space between any two.
    pub words: Option<&'a [u8]>,
}

/// The tag that a word is.
fn tag_of(word: &[u8]) -> Option<u8>
    ensures { result ≡ spec.tag_of word.now }
{
    match word {
        b"L" | b"V" | b"H" => word.first().copied(),
        _ => None,
    }
}

/// The level that a word is.
fn value_of(word: &[u8]) -> Option<u8>
    ensures { result ≡ spec.value_of word.now }
{
    match word {
        [byte] if is_value(*byte) => Some(*byte),
        _ => None,
    }
}

/// Whether each word tells something of an output or of a check.
fn are_signs(words: Option<&[u8]>) -> bool
    ensures { result ≡ list_all (λ word. is_some (sign_of_word word)) (pieces_left 32 (option_copied words.entry)) }
{
    let mut rest = words;
    while let Some(text) = rest {
        let (word, more) = cut(text, b' ');
        if sign_of(word).is_none() {
            return false;
        }
        rest = more;
    }
    true
}

/// A line of which this stands behind the change.
fn behind_change<'a>(
    tag: u8,
    at: u64,
    change: Option<Input<'a>>,
    rest: Option<&'a [u8]>,
) -> Option<Trace<'a>>
    ensures { option_map spec.seen result ≡ spec.behind_change tag at (option_map spec.seen_input change.entry)
        (pieces_left 32 (option_copied rest.entry)) }
{
    let (colon, words) = first_word(rest)?;
    if colon != b":".as_slice() || !are_signs(words) {
        return None;
    }
    Some(Trace {
        tag,
        at,
        change,
        words,
    })
}

/// A line of which this stands behind the time of the change.
fn changed<'a>(tag: u8, at: u64, rest: Option<&'a [u8]>) -> Option<Trace<'a>>
    ensures { option_map spec.seen result ≡ spec.changed tag at (pieces_left 32 (option_copied rest.entry)) }
{
    let (name, rest) = first_word(rest)?;
    if name.is_empty() {
        return None;
    }
    let (value, rest) = first_word(rest)?;
    let value = value_of(value)?;
    behind_change(tag, at, Some(Input { name, value }), rest)
}

/// A line of which this stands behind the tag.
fn behind_tag<'a>(tag: u8, rest: Option<&'a [u8]>) -> Option<Trace<'a>>
    ensures { option_map spec.seen result ≡ spec.behind_tag tag (pieces_left 32 (option_copied rest.entry)) }
{
    let (first, rest) = first_word(rest)?;
    if first == b"start".as_slice() {
        return behind_change(tag, 0, None, rest);
    }
    changed(tag, number_of(first)?, rest)
}

/// What a line tells, where it is one of a trace.
pub(crate) fn trace_of(line: &[u8]) -> Option<Trace<'_>>
    ensures { option_map spec.seen result ≡ spec.trace_of line.now }
{
    let (first, rest) = cut(line, b' ');
    behind_tag(tag_of(first)?, rest)
}
