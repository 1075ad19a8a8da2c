//! Bits in brackets behind the name of a bus.
ghost use Rattle.std.specs.Prelude.{◌≡◌, ◌<◌, None, length, position, option_map, IfSome};
ghost use Rattle.bank_refusals.specs.Ranges as spec;

use bus_texts::digits_number;

/// The bits from one to another, in either order.
#[derive(Clone, Copy)]
pub(crate) struct BitRange {
    pub(crate) from: u16,
    pub(crate) to: u16,
}

/// What stands between a bracket at the front of a text and one at its end.
fn inside_brackets(text: &[u8]) -> Option<&[u8]>
    ensures { option_map (λ inner. inner.now) result ≡ spec.inside_brackets text.now }
{
    if text.len() >= 2 && text[0] == b'[' && text[text.len() - 1] == b']' {
        Some(&text[1..text.len() - 1])
    } else {
        None
    }
}

/// The range from one number to another.
fn range_between(from: Option<u16>, to: Option<u16>) -> Option<BitRange>
    ensures { result ≡ spec.range_between from to }
{
    Some(BitRange {
        from: from?,
        to: to?,
    })
}

/// Where the first colon of a text stands.
fn colon_in(text: &[u8]) -> Option<usize>
    ensures value { result ≡ position spec.is_colon text.now }
    ensures within { IfSome result (λ at. at < length text.now) }
{
    text.iter().position(|byte| *byte == b':')
}

/// The range that one number tells, or two with a colon between them.
fn range_as(inner: &[u8]) -> Option<BitRange>
    ensures { result ≡ spec.range_as inner.now }
{
    match colon_in(inner) {
        None => range_between(digits_number(inner), digits_number(inner)),
        Some(at) => range_between(digits_number(&inner[..at]), digits_number(&inner[at + 1..])),
    }
}

/// The bits of a text `[bit]` or `[from:to]`.
fn range_in(text: &[u8]) -> Option<BitRange>
    ensures { result ≡ spec.range_in text.now }
{
    range_as(inside_brackets(text)?)
}

/// Whether a range has a bit.
fn is_between(bit: u16, range: BitRange) -> bool
    ensures { result ≡ spec.is_between bit range }
{
    range.from <= bit && bit <= range.to || range.to <= bit && bit <= range.from
}

/// Whether an argument names a bit of a bus.
pub(crate) fn names_bit(name: &[u8], bit: u16, argument: &[u8]) -> bool
    ensures { result ≡ spec.names_bit name.now bit argument.now }
{
    if !argument.starts_with(name) {
        return false;
    }
    match range_in(&argument[name.len()..]) {
        None => false,
        Some(range) => is_between(bit, range),
    }
}

/// Whether a text is a number in brackets.
fn is_bit(text: &[u8]) -> bool
    ensures { result ≡ spec.is_number_in (spec.inside_brackets text.now) }
{
    match inside_brackets(text) {
        None => false,
        Some(inner) => digits_number(inner).is_some(),
    }
}

/// Where the last bracket of a text opens.
fn last_opening(text: &[u8]) -> Option<usize>
    ensures value { result ≡ spec.last_opening 0 None text.now }
    ensures within { IfSome result (λ at. at < length text.now) }
{
    let mut found = None;
    for (at, byte) in text.iter().enumerate() {
        if *byte == b'[' {
            found = Some(at);
        }
    }
    found
}

/// A word without the bit that is written behind it.
pub(crate) fn stem(word: &[u8]) -> &[u8]
    ensures { result.now ≡ spec.stem word.now }
{
    match last_opening(word) {
        Some(at) if is_bit(&word[at..]) => &word[..at],
        _ => word,
    }
}
