//! Entries of tables that are digits, a point and digits, as nearly all are.
ghost use Rattle.std.specs.Prelude.{◌≡◌, ◌∷◌, ◌+◌, ◌-◌, ◌≤◌, ◌<◌, ◌^◌, true, false, length, take, IfSome, MatchOption, Ok};
ghost use Rattle.std.specs.Prelude.{pos, ◌-ℤ◌};
ghost use Rattle.liberty_text.specs.Number.{digit_run, fixed_of};
ghost use Rattle.timing_arcs.specs.Tables.{is_separator as separates};
ghost use Rattle.timing_arcs.specs.Words.{word_length, front_number};
ghost use Rattle.timing_arcs.specs.PlainForm.{starts_at_point, is_plain};

use crate::words::is_end;
use liberty_text::Fixed;

/// The most digits of a plain entry.
const MOST_DIGITS: usize = 18;

/// An entry at the front of a text.
#[derive(Clone, Copy)]
pub(crate) struct PlainEntry {
    pub(crate) number: Fixed,
    /// How many bytes it has.
    pub(crate) length: usize,
}

/// Digits at the front of a text.
#[derive(Clone, Copy)]
struct Digits {
    /// The number that they spell, behind a number.
    number: u64,
    count: usize,
}

/// The digits at the front of a text, behind the number that others spell. None where they are more than there is room for.
#[inline(always)]
fn digits_behind(before: u64, room: usize, text: &[u8]) -> Option<Digits>
    requires room { room ≤ 18 }
    requires before { before < 10 ^ (18 - room) }
    ensures room { MatchOption result (room < digit_run text.now) (λ digits. digits.count ≤ room) }
    ensures count { IfSome result (λ digits. digits.count ≡ digit_run text.now) }
    ensures number { IfSome result (λ digits. digits.number ≡ front_number before text.now) }
    ensures fits { IfSome result (λ digits. digits.number < 10 ^ (18 - room + digits.count)) }
    ensures within { IfSome result (λ digits. digits.count ≤ length text.now) }
{
    let mut number = before;
    for (at, byte) in text.iter().enumerate() {
        if !byte.is_ascii_digit() {
            return Some(Digits { number, count: at });
        }
        if at >= room {
            return None;
        }
        number = number * 10 + u64::from(*byte - b'0');
    }
    Some(Digits {
        number,
        count: text.len(),
    })
}

/// A text without the point that it begins with.
fn behind_point(text: &[u8]) -> Option<&[u8]>
    ensures { MatchOption result (starts_at_point text.now ≡ false) (λ behind. text.now ≡ 46 ∷ behind.now) }
{
    match text {
        [b'.', behind @ ..] => Some(behind),
        _ => None,
    }
}

/// The entry at the front of a text, where it has the plain form.
pub(crate) fn plain_entry(text: &[u8]) -> Option<PlainEntry>
    ensures plain { MatchOption result (is_plain text.now ≡ false) (λ _. is_plain text.now ≡ true) }
    ensures length { IfSome result (λ entry. entry.length ≡ word_length separates text.now) }
    ensures within { IfSome result (λ entry. entry.length ≤ length text.now) }
    ensures number { IfSome result (λ entry. fixed_of (take (word_length separates text.now) text.now) ≡ Ok entry.number) }
{
    let whole = digits_behind(0, MOST_DIGITS, text)?;
    let (_, rest) = text.split_at(whole.count);
    let fraction = behind_point(rest)?;
    let all = digits_behind(whole.number, MOST_DIGITS - whole.count, fraction)?;
    let digits = whole.count + all.count;
    let (_, behind) = fraction.split_at(all.count);
    if digits == 0 {
        return None;
    }
    if !is_end(behind) {
        return None;
    }
    Some(PlainEntry {
        number: decimal(all.number, all.count),
        length: digits + 1,
    })
}

/// Digits, of which so many stand behind the point.
fn decimal(digits: u64, places: usize) -> Fixed
    requires digits { digits < 2 ^ 63 }
    requires places { places ≤ 18 }
    ensures { result ≡ record { mantissa = pos digits; exponent = pos 0 -ℤ pos places } }
{
    Fixed {
        mantissa: digits as i64,
        exponent: 0 - places as i8,
    }
}
