//! Classes of bytes, and how many bytes of one stand at the front of others.

ghost use Rattle.std.specs.Prelude.{◌≡◌, ◌≤◌, length, not, ◌==◌};
ghost use Rattle.std.specs.List.{list_all, prefix_len};
ghost use Rattle.std.specs.Char.{is_ascii_digit};
ghost use Rattle.lexer.specs.Tokens as spec;

use crate::byte_table;

/// A class of bytes.
pub trait ByteClass {
    ghost use Rattle.std.specs.Prelude.{ℕ, Bool};

    ghost has: { ℕ → Bool };

    /// Whether a byte is in the class. It takes no memory.
    fn contains(byte: u8) -> bool
        ensures { result ≡ has byte };
}

/// Spaces, tabs and line ends.
pub struct Blank;

impl ByteClass for Blank {
    ghost has = { spec.is_blank };

    #[inline(always)]
    fn contains(byte: u8) -> bool {
        is_blank(byte)
    }
}

/// All bytes but a line end.
pub struct InLine;

impl ByteClass for InLine {
    ghost has = { λ c. not (c == 10) };

    #[inline(always)]
    fn contains(byte: u8) -> bool {
        byte != b'\n'
    }
}

/// Digits.
pub struct Digit;

impl ByteClass for Digit {
    ghost has = { is_ascii_digit };

    #[inline(always)]
    fn contains(byte: u8) -> bool {
        byte.is_ascii_digit()
    }
}

/// Letters, digits and `_`.
pub struct NameByte;

impl ByteClass for NameByte {
    ghost has = { spec.is_name_byte };

    #[inline(always)]
    fn contains(byte: u8) -> bool {
        is_name_byte(byte)
    }
}

macro_rules! name_byte {
    ($b:expr) => {
        (b'0' <= $b && $b <= b'9')
            || (b'A' <= $b && $b <= b'Z')
            || (b'a' <= $b && $b <= b'z')
            || $b == b'_'
    };
}

/// Of each byte, whether it is a letter, a digit or `_`.
static NAME_BYTES: [bool; 256] = byte_table!(name_byte);

/// Whether a byte is a letter, a digit or `_`, by one look.
#[inline(always)]
fn is_name_byte(byte: u8) -> bool
    ensures { result ≡ spec.is_name_byte byte }
{
    NAME_BYTES[usize::from(byte)]
}

macro_rules! blank {
    ($b:expr) => {
        $b == b' ' || $b == b'\t' || $b == b'\n'
    };
}

/// Of each byte, whether it is a space, a tab or a line end.
static BLANKS: [bool; 256] = byte_table!(blank);

/// Whether a byte is a space, a tab or a line end, by one look.
#[inline(always)]
fn is_blank(byte: u8) -> bool
    ensures { result ≡ spec.is_blank byte }
{
    BLANKS[usize::from(byte)]
}

/// How many bytes of a class stand at the front of these.
#[inline(always)]
pub fn run_length<C: ByteClass>(bytes: &[u8]) -> usize
    ensures value { result ≡ prefix_len C.has bytes.now }
    ensures within { result ≤ length bytes.now }
{
    for (at, byte) in bytes.iter().enumerate() {
        if !C::contains(*byte) {
            return at;
        }
    }
    bytes.len()
}

/// How many letters, digits and `_` stand at the front of these. Most names have some, so four are looked at in each turn; it is no
/// part of its callers, which leaves their registers alone.
#[inline(never)]
pub fn name_length(bytes: &[u8]) -> usize
    ensures value { result ≡ prefix_len spec.is_name_byte bytes.now }
    ensures within { result ≤ length bytes.now }
{
    let mut count = 0;
    let mut rest = bytes;
    while let [first, second, third, fourth, more @ ..] = rest {
        if !is_name_byte(*first) {
            return count;
        }
        if !is_name_byte(*second) {
            return count + 1;
        }
        if !is_name_byte(*third) {
            return count + 2;
        }
        if !is_name_byte(*fourth) {
            return count + 3;
        }
        count += 4;
        rest = more;
    }
    count + run_length::<NameByte>(rest)
}

/// Whether each byte is of a class.
pub fn are_all<C: ByteClass>(bytes: &[u8]) -> bool
    ensures { result ≡ list_all C.has bytes.now }
{
    for byte in bytes {
        if !C::contains(*byte) {
            return false;
        }
    }
    true
}
