//! What a word of a line of a trace tells of an output or of a check.
ghost use Rattle.std.specs.Prelude.{◌≡◌};
ghost use Rattle.std.specs.Option.{option_map};
ghost use Rattle.wave_reports.specs.Signs as spec;

use crate::pieces::cut_last;
use lexer::{is_number, number_of};

/// What a word tells of an output or of a check.
#[derive(Clone, Copy)]
pub(crate) struct Sign<'a> {
    /// `=` where it is the level of an output, and `!` where it is the report of a check.
    pub mark: u8,
    /// The name of the output, or the digits of the check's number.
    pub name: &'a [u8],
    /// The byte of the level: `0`, `1`, `x` or `z`; `1` of a report.
    pub value: u8,
    /// How many picoseconds after the change it shows, where it is new.
    pub delay: Option<u64>,
}

/// Whether a byte is a level.
pub(crate) fn is_value(byte: u8) -> bool
    ensures { result ≡ spec.is_value byte }
{
    byte == b'0' || byte == b'1' || byte == b'x' || byte == b'z'
}

/// The level of an output, with the delay that stands behind it.
fn level(name: &[u8], value: u8, delay: Option<u64>) -> Option<Sign<'_>>
    ensures { option_map spec.seen result ≡ spec.level name.now value delay }
{
    if !is_value(value) {
        return None;
    }
    Some(Sign {
        mark: b'=',
        name,
        value,
        delay,
    })
}

/// The level that stands behind the name of an output.
fn level_sign<'a>(name: &'a [u8], text: &[u8]) -> Option<Sign<'a>>
    ensures { option_map spec.seen result ≡ spec.level_sign name.now text.now }
{
    let (value, behind) = text.split_first()?;
    match behind.split_first() {
        None => level(name, *value, None),
        Some((at, digits)) => {
            if *at != b'@' {
                return None;
            }
            level(name, *value, Some(number_of(digits)?))
        }
    }
}

/// The report of a check.
fn report_sign(word: &[u8]) -> Option<Sign<'_>>
    ensures { option_map spec.seen result ≡ spec.report_sign word.now }
{
    let (first, number) = word.split_first()?;
    if *first != b'!' || !is_number(number) {
        return None;
    }
    Some(Sign {
        mark: b'!',
        name: number,
        value: b'1',
        delay: Some(0),
    })
}

/// What a word tells.
pub(crate) fn sign_of(word: &[u8]) -> Option<Sign<'_>>
    ensures { option_map spec.seen result ≡ spec.sign_of word.now }
{
    match cut_last(word, b'=') {
        (Some(name), text) => {
            if name.is_empty() {
                return None;
            }
            level_sign(name, text)
        }
        (None, text) => report_sign(text),
    }
}
