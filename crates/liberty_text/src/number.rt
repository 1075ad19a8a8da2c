//! The numbers of a Liberty text.

ghost use Rattle.std.specs.Prelude.{◌≡◌, ◌+◌, ◌≤◌, ◌<◌, ◌^◌, length, take, drop, Some, None, MatchOption, ◌++◌, nat_lt, IfSome};
ghost use Rattle.std.specs.Prelude.{IfOk, IfErr, pos, ◌-ℤ◌};
ghost use Rattle.liberty_text.specs.Number.{digit_run, sign_of, fraction_of, exponent_of, is_run, written_of, IsSpelled};
ghost use Rattle.liberty_text.specs.Number.{significant, digits_value, signed, AreDigits, Written, fixed_with, fixed_of};
ghost use Rattle.liberty_text.specs.Number.{IsFixedOf, IsNumberFaultOf};

use crate::decimal::{Fixed, NumberFault};
use lexer::{Digit, number_after, run_length};

/// A number as it is written, in bytes of its text.
#[derive(Clone, Copy)]
struct Spelling<'a> {
    negative: bool,
    whole: &'a [u8],
    fraction: &'a [u8],
    exponent_negative: bool,
    exponent: &'a [u8],
}

/// Whether a minus stands at the front, and what stands behind the sign.
fn sign(text: &[u8]) -> (bool, &[u8])
    ensures negative { result.0 ≡ (sign_of text.now).0 }
    ensures rest { result.1.now ≡ (sign_of text.now).1 }
{
    match text {
        [b'-', rest @ ..] => (true, rest),
        [b'+', rest @ ..] => (false, rest),
        _ => (false, text),
    }
}

/// The digits behind a point, and what stands behind them.
fn fraction(text: &[u8]) -> (&[u8], &[u8])
    ensures digits { result.0.now ≡ (fraction_of text.now).0 }
    ensures rest { result.1.now ≡ (fraction_of text.now).1 }
{
    match text {
        [b'.', rest @ ..] => rest.split_at(run_length::<Digit>(rest)),
        _ => text.split_at(0),
    }
}

/// Whether the bytes are digits, one at least.
fn is_run(bytes: &[u8]) -> bool
    ensures { result ≡ is_run bytes.now }
{
    !bytes.is_empty() && run_length::<Digit>(bytes) == bytes.len()
}

/// Whether an exponent is negative, and its digits. There may be none.
fn exponent(text: &[u8]) -> Option<(bool, &[u8])>
    ensures { MatchOption result (exponent_of text.now ≡ None) (λ found. exponent_of text.now ≡ Some (found.0, found.1.now)) }
{
    match text {
        [] => Some((false, text)),
        [b'e' | b'E', rest @ ..] => {
            let (negative, digits) = sign(rest);
            if is_run(digits) {
                Some((negative, digits))
            } else {
                None
            }
        }
        _ => None,
    }
}

/// The number that a text is.
fn spelled(text: &[u8]) -> Option<Spelling<'_>>
    ensures { MatchOption result (written_of text.now ≡ None)
        (λ found. IsSpelled found.negative found.whole.now found.fraction.now found.exponent_negative found.exponent.now
        (written_of text.now)) }
{
    let (negative, body) = sign(text);
    let (whole, rest) = body.split_at(run_length::<Digit>(body));
    let (fraction, tail) = fraction(rest);
    match exponent(tail) {
        Some((exponent_negative, exponent)) if !whole.is_empty() || !fraction.is_empty() => Some(
            Spelling {
                negative,
                whole,
                fraction,
                exponent_negative,
                exponent,
            },
        ),
        _ => None,
    }
}

/// How many digits stand behind the leading zeros.
fn significant(digits: &[u8]) -> usize
    ensures value { result ≡ significant digits.now }
    ensures within { result ≤ length digits.now }
{
    for (at, digit) in digits.iter().enumerate() {
        if *digit != b'0' {
            return digits.len() - at;
        }
    }
    0
}

/// Whether more than 18 digits stand behind the leading zeros, the point taken out.
#[tactic(auto, using(crate::proofs::Numbers::significant_append))]
fn has_too_many(whole: &[u8], fraction: &[u8]) -> bool
    ensures { result ≡ nat_lt 18 (significant (whole.now ++ fraction.now)) }
{
    match significant(whole) {
        0 => significant(fraction) > 18,
        found => found > 18 || fraction.len() > 18 - found,
    }
}

/// The number that the digits of an exponent are, up to 30.
#[tactic(auto, using(crate::proofs::Numbers::short_value, crate::proofs::Numbers::value_exceeds))]
fn exponent_value(digits: &[u8]) -> Option<u8>
    requires { AreDigits digits.now }
    ensures { MatchOption result (30 < digits_value 0 digits.now) (λ value. (value ≡ digits_value 0 digits.now) × (value ≤ 30)) }
{
    if significant(digits) > 2 {
        return None;
    }
    let value = number_after(0, digits);
    if value > 30 { None } else { Some(value as u8) }
}

/// The digits with their sign.
fn signed_mantissa(negative: bool, digits: u64) -> i64
    requires { digits < 2 ^ 63 }
    ensures { result ≡ signed negative digits }
{
    let mantissa = digits as i64;
    if negative { -mantissa } else { mantissa }
}

/// The exponent with its sign, less the digits behind the point.
fn signed_exponent(negative: bool, written: u8, digits: u8) -> i8
    requires written { written ≤ 30 }
    requires digits { digits ≤ 30 }
    ensures { result ≡ (signed negative written -ℤ pos digits) }
{
    let exponent = written as i8;
    let exponent = if negative { -exponent } else { exponent };
    exponent - digits as i8
}

impl Spelling<'_> {
    /// The number, or why it is out of bounds.
    #[tactic(auto, using(crate::proofs::Numbers::long_value, crate::proofs::Numbers::first_value))]
    fn value(&self) -> Result<Fixed, NumberFault>
        requires whole { AreDigits self.now.whole.now }
        requires fraction { AreDigits self.now.fraction.now }
        requires exponent { AreDigits self.now.exponent.now }
        ensures { result ≡ fixed_with (record {
          negative = self.now.negative;
          whole = self.now.whole.now;
          fraction =
              self.now.fraction.now;
          exponent_negative = self.now.exponent_negative;
          exponent = self.now.exponent.now;
        }) }
    {
        if has_too_many(self.whole, self.fraction) {
            return Err(NumberFault::TooManyDigits);
        }
        let Some(written) = exponent_value(self.exponent) else {
            return Err(NumberFault::TooLarge);
        };
        let behind = self.fraction.len();
        if behind > 30 {
            return Err(NumberFault::TooLarge);
        }
        let digits = number_after(number_after(0, self.whole), self.fraction);
        Ok(Fixed {
            mantissa: signed_mantissa(self.negative, digits),
            exponent: signed_exponent(self.exponent_negative, written, behind as u8),
        })
    }
}

/// `fixed`, as it is computed.
fn number(text: &[u8]) -> Result<Fixed, NumberFault>
    ensures { result ≡ fixed_of text.now }
{
    match spelled(text) {
        None => Err(NumberFault::NotNumber),
        Some(spelling) => spelling.value(),
    }
}

/// The number that a text is: an optional sign, digits with an optional point, one digit at least,
/// and an optional exponent. Takes no memory.
#[tactic(auto, using(crate::proofs::Fixeds::fixed_number, crate::proofs::Fixeds::fixed_fault))]
pub fn fixed(text: &[u8]) -> Result<Fixed, NumberFault>
    ensures number { IfOk result (λ number. IsFixedOf text.now number) }
    ensures fault { IfErr result (λ fault. IsNumberFaultOf text.now fault) }
    ensures exact { result ≡ fixed_of text.now }
{
    number(text)
}
