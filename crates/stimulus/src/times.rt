//! Times.
ghost use Rattle.std.specs.Prelude.{◌≡◌, ◌<◌, ◌+◌, ◌-◌, ◌*◌, ◌^◌, true};
ghost use Rattle.stimulus.specs.Times.{is_digit as is_digit_of, time_of as time_of_word};

/// The most digits that a time may have.
pub(crate) const MAX_DIGITS: usize = 15;

/// Whether a byte is a decimal digit.
pub(crate) fn is_digit(byte: u8) -> bool
    ensures { result ≡ is_digit_of byte }
{
    byte.is_ascii_digit()
}

/// The number that a digit makes behind the digits of a number.
pub(crate) fn with_digit(number: u64, digit: u8) -> u64
    requires digit { is_digit_of digit ≡ true }
    requires small { number < 10 ^ 15 }
    ensures { result ≡ 10 * number + (digit - 48) }
{
    10 * number + u64::from(digit - b'0')
}

/// The time, in picoseconds, that a word of 1 to 15 digits stands for.
pub(crate) fn time_of(word: &[u8]) -> Option<u64>
    ensures { result ≡ time_of_word word.now }
{
    if word.is_empty() || word.len() > MAX_DIGITS {
        return None;
    }
    let mut time: u64 = 0;
    for digit in word {
        if !is_digit(*digit) {
            return None;
        }
        time = with_digit(time, *digit);
    }
    Some(time)
}
