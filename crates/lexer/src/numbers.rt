//! Unsigned decimal numbers.

ghost use Rattle.std.specs.Prelude.{◌≡◌, ◌<◌, ◌^◌};
ghost use Rattle.lexer.specs.Numbers as spec;

use crate::classes::{Digit, are_all};
use crate::fronts::MOST_DIGITS;

/// Whether a token is a number: it is digits alone, at least one. It takes no memory.
pub fn is_number(token: &[u8]) -> bool
    ensures { result ≡ spec.is_number token.now }
{
    match token.split_first() {
        None => false,
        Some((first, others)) => first.is_ascii_digit() && are_all::<Digit>(others),
    }
}

/// The digits as a number, behind digits that are `before`. It takes no memory.
#[tactic(auto, using(crate::proofs::DigitLemmas::next_fits, crate::proofs::DigitLemmas::digit_at))]
pub fn number_after(before: u64, digits: &[u8]) -> u64
    requires digits { spec.AreDigits digits.now }
    requires fits { spec.number_after before digits.now < 2 ^ 63 }
    ensures { result ≡ spec.number_after before digits.now }
{
    let mut value = before;
    for digit in digits {
        value = value * 10 + u64::from(*digit - b'0');
    }
    value
}

/// The number of a token: digits alone, at most 15. It takes no memory.
#[tactic(auto, using(crate::proofs::DigitLemmas::are_digits, crate::proofs::DigitLemmas::short_fits))]
pub fn number_of(token: &[u8]) -> Option<u64>
    ensures { result ≡ spec.number_of token.now }
{
    if is_number(token) && token.len() <= MOST_DIGITS {
        Some(number_after(0, token))
    } else {
        None
    }
}
