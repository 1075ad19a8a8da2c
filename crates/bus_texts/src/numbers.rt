//! The numbers of bits, and the widths of banks.
ghost use Rattle.std.specs.Prelude.{◌≡◌, ◌≤◌, IfOk, IfSome};
ghost use Rattle.bus_texts.specs.Numbers as spec;

use sqlite_items::Items;
use std::alloc::{AllocError, Global};

/// The number of a text of digits alone. All above 999 count as 1,000.
pub fn digits_number(text: &[u8]) -> Option<u16>
    ensures value { result ≡ spec.digits_number text.now }
    ensures small { IfSome result (λ number. number ≤ 1000) }
{
    if text.is_empty() {
        return None;
    }
    let mut number: u16 = 0;
    for digit in text {
        if !digit.is_ascii_digit() {
            return None;
        }
        number = (number * 10 + u16::from(*digit - b'0')).min(1000);
    }
    Some(number)
}

/// The number of one to three digits.
pub(crate) fn short_number(text: &[u8]) -> Option<u16>
    ensures { result ≡ spec.short_number text.now }
{
    if text.len() <= 3 {
        digits_number(text)
    } else {
        None
    }
}

/// The bit that follows another one on the way to a third.
fn next_bit(to: u16, bit: u16) -> u16
    ensures { result ≡ spec.next_bit to bit }
{
    if bit < to {
        bit + 1
    } else {
        bit.saturating_sub(1)
    }
}

/// From a bit on as many bits as this, each next one by one nearer to another.
#[tactic(auto, using(crate::proofs::LoopLemmas::bits_end))]
pub(crate) fn bits_towards(
    alloc: Global,
    to: u16,
    count: usize,
    from: u16,
) -> Result<Items<u16>, AllocError>
    ensures { IfOk result (λ bits. bits ≡ spec.bits_towards to count from) }
{
    let mut bits = Items::new(alloc);
    let mut bit = from;
    for _turn in 0..count {
        bits.push(bit)?;
        bit = next_bit(to, bit);
    }
    Ok(bits)
}
