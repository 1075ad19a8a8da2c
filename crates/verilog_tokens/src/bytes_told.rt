//! What single bytes are in Verilog text.

ghost use Rattle.std.specs.Prelude.{◌≡◌};
ghost use Rattle.verilog_tokens.specs.Tokens as spec;

use lexer::byte_table;

macro_rules! one_of {
    ($b:expr, $($c:literal)*) => { false $(|| $b == $c)* };
}

macro_rules! symbol {
    ($b:expr) => {
        one_of!($b, b'0' b'1' b'x' b'X' b'b' b'B' b'?' b'r' b'R' b'f' b'F' b'p' b'P' b'n' b'N' b'*' b'-' b'(' b')' b':' b';')
    };
}

macro_rules! mark {
    ($b:expr) => { one_of!($b, b'(' b')' b',' b';' b':') };
}

macro_rules! word_start {
    ($b:expr) => {
        (b'A' <= $b && $b <= b'Z') || (b'a' <= $b && $b <= b'z') || one_of!($b, b'_' b'$' b'`')
    };
}

/// Of each byte, whether it is a symbol of a table.
static SYMBOLS: [bool; 256] = byte_table!(symbol);

/// Whether a byte is a symbol of a table, by one look.
#[inline(always)]
pub fn is_symbol(byte: u8) -> bool
    ensures { result ≡ spec.is_symbol byte }
{
    SYMBOLS[usize::from(byte)]
}

/// Of each byte, whether it is a mark of one byte.
static MARKS: [bool; 256] = byte_table!(mark);

/// Whether a byte is a mark of one byte, by one look.
#[inline(always)]
pub fn is_mark(byte: u8) -> bool
    ensures { result ≡ spec.is_mark byte }
{
    MARKS[usize::from(byte)]
}

/// Of each byte, whether it begins a word.
static STARTS: [bool; 256] = byte_table!(word_start);

/// Whether a byte begins a word, by one look.
#[inline(always)]
pub fn begins_word(byte: u8) -> bool
    ensures { result ≡ spec.begins_word byte }
{
    STARTS[usize::from(byte)]
}
