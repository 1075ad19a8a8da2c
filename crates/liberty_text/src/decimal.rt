//! Decimal numbers that are exact.

use thiserror::Error;

/// A number as a mantissa and an exponent of ten: `mantissa` times 10 to the `exponent`.
#[derive(Clone, Copy, PartialEq, Eq)]
pub struct Fixed {
    pub mantissa: i64,
    pub exponent: i8,
}

/// Why a text gives no number, tried in this order.
#[derive(Clone, Copy, Debug, PartialEq, Eq, Error)]
pub enum NumberFault {
    /// The text is no number.
    #[error("not a number")]
    NotNumber,
    /// More than 18 digits stand behind the leading zeros, the point taken out.
    #[error("too many digits")]
    TooManyDigits,
    /// The exponent lies outside -30 to 30, or more than 30 digits stand behind the point.
    #[error("too large an exponent")]
    TooLarge,
}
