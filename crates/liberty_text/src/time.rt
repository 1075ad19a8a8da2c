//! Times in whole picoseconds.

ghost use Rattle.std.specs.Prelude.{◌≡◌, ◌^◌, ◌≤◌, ◌<◌, ◌*◌, true, pos, negsuc, MatchOption, IfSome};
ghost use Rattle.std.specs.Int.{div_ceil};
ghost use Rattle.liberty_text.specs.Time.{IsRoundedUp, IsTooLong, IsWithin, picoseconds_of, unit_exponent, scaled, bounded};
ghost use Rattle.liberty_text.specs.Time.{times_ten, over_ten, rounded_up};

use crate::decimal::Fixed;

/// A library's unit of time.
#[derive(Clone, Copy)]
pub enum Unit {
    /// 1 picosecond.
    Ps1,
    /// 10 picoseconds.
    Ps10,
    /// 100 picoseconds.
    Ps100,
    /// 1,000 picoseconds.
    Ns1,
}

/// The greatest time, in picoseconds.
const GREATEST: u64 = 999_999_999_999_999;

/// The exponent of ten of a unit in picoseconds.
fn unit_exponent(unit: Unit) -> i16
    ensures { result ≡ pos (unit_exponent unit) }
{
    match unit {
        Unit::Ps1 => 0,
        Unit::Ps10 => 1,
        Unit::Ps100 => 2,
        Unit::Ns1 => 3,
    }
}

/// Ten to the numbers up to 18.
const POWERS: [u64; 19] = [
    1,
    10,
    100,
    1_000,
    10_000,
    100_000,
    1_000_000,
    10_000_000,
    100_000_000,
    1_000_000_000,
    10_000_000_000,
    100_000_000_000,
    1_000_000_000_000,
    10_000_000_000_000,
    100_000_000_000_000,
    1_000_000_000_000_000,
    10_000_000_000_000_000,
    100_000_000_000_000_000,
    1_000_000_000_000_000_000,
];

/// Ten to a number.
fn power_of_ten(exponent: u16) -> u64
    requires { exponent ≤ 18 }
    ensures { result ≡ 10 ^ exponent }
{
    POWERS[exponent as usize]
}

/// A number, where it is a time that is not above the greatest.
fn bounded(time: u64) -> Option<u64>
    ensures { result ≡ bounded time }
{
    if time <= GREATEST { Some(time) } else { None }
}

/// A product, where it is a time that is not above the greatest.
#[tactic(auto, using(crate::proofs::Times::product_fits, crate::proofs::Times::product_bounded, crate::proofs::Times::product_exceeds))]
fn product(mantissa: u64, power: u64) -> Option<u64>
    requires { 0 < power }
    ensures { result ≡ bounded (mantissa * power) }
{
    if mantissa > GREATEST / power {
        None
    } else {
        Some(mantissa * power)
    }
}

/// A number over ten to another, rounded up. Nearly all times of a library have few places behind a picosecond, and a division by
/// a constant is done as a multiplication.
#[tactic(auto, using(crate::proofs::Times::power_some))]
fn over_power(mantissa: u64, exponent: u16) -> u64
    requires { exponent ≤ 18 }
    ensures { result ≡ div_ceil mantissa (10 ^ exponent) }
{
    match exponent {
        1 => mantissa.div_ceil(10),
        2 => mantissa.div_ceil(100),
        3 => mantissa.div_ceil(1_000),
        4 => mantissa.div_ceil(10_000),
        _ => mantissa.div_ceil(power_of_ten(exponent)),
    }
}

/// A positive number times ten to an exponent, rounded up, where that is not above the greatest time.
#[tactic(auto, using(crate::proofs::Times::far_up, crate::proofs::Times::far_down, crate::proofs::Times::scaled_up, crate::proofs::Times::scaled_down, crate::proofs::Times::power_some))]
fn scaled(mantissa: u64, exponent: i16) -> Option<u64>
    requires some { 0 < mantissa }
    requires fits { mantissa < 2 ^ 63 }
    ensures { result ≡ bounded (scaled mantissa exponent) }
{
    if exponent > 15 {
        return None;
    }
    if exponent < -18 {
        return Some(1);
    }
    let size = exponent.unsigned_abs();
    if exponent < 0 {
        bounded(over_power(mantissa, size))
    } else {
        product(mantissa, power_of_ten(size))
    }
}

/// A time in picoseconds: the least whole number that is not below `value` times the unit, and so 0
/// where it is negative. None where that is above 999,999,999,999,999. Takes no memory.
pub fn picoseconds(value: Fixed, unit: Unit) -> Option<u64>
    ensures rounded_up { MatchOption result (IsTooLong value unit) (IsRoundedUp value unit) }
    ensures bounded { IfSome result (λ time. time ≤ 999999999999999) }
    ensures exact { result ≡ picoseconds_of value unit }
{
    whole_time(value, unit)
}

/// How many parts make a picosecond, where a number has one to four places behind one.
fn parts_of_picosecond(exponent: i16) -> Option<u64>
    ensures parts { IfSome result (λ parts. (parts ≡ over_ten exponent) × (times_ten exponent ≡ 1)) }
    ensures few { IfSome result (λ parts. parts ≤ 10000) }
{
    match exponent {
        -1 => Some(10),
        -2 => Some(100),
        -3 => Some(1_000),
        -4 => Some(10_000),
        _ => None,
    }
}

/// Whether one product shows that a number times ten to an exponent, rounded up, is a time that is not above another one.
#[tactic(auto, using(crate::proofs::Times::shown_within, crate::proofs::Times::parts_fit))]
fn is_product_within(mantissa: i64, exponent: i16, most: u64) -> bool
    ensures { result ≡ true → IsWithin most (bounded (rounded_up mantissa exponent)) }
{
    let Some(parts) = parts_of_picosecond(exponent) else {
        return false;
    };
    if mantissa < 0 || most > GREATEST {
        return false;
    }
    mantissa.unsigned_abs() <= most * parts
}

/// Whether one product shows that a time is not above another one, both in picoseconds. Where it does not, the time may still
/// be one that is not above. Takes no memory.
#[inline(always)]
pub fn is_shown_within(value: Fixed, unit: Unit, most: u64) -> bool
    ensures { result ≡ true → IsWithin most (picoseconds_of value unit) }
{
    let exponent = i16::from(value.exponent) + unit_exponent(unit);
    is_product_within(value.mantissa, exponent, most)
}

/// `picoseconds`, as it is computed.
fn whole_time(value: Fixed, unit: Unit) -> Option<u64>
    ensures { result ≡ picoseconds_of value unit }
{
    if value.mantissa <= 0 {
        return Some(0);
    }
    let exponent = i16::from(value.exponent) + unit_exponent(unit);
    scaled(value.mantissa.unsigned_abs(), exponent)
}
