//! Which tokens of VHDL text are names, and when two tokens stand for the same.

ghost use Rattle.std.specs.Prelude.{◌≡◌, false};
ghost use Rattle.std.specs.Str.{bytes_eq};
ghost use Rattle.vhdl_tokens.specs.Words.{is_vhdl_word};
ghost use Rattle.vhdl_tokens.specs.Tokens as tokens;
ghost use Rattle.vhdl_tokens.specs.Spelling as spec;
ghost use Rattle.vhdl_tokens.specs.SecondBytes.{is_second_of_no_word};

use crate::is_vhdl_word;
use lexer::byte_table;

/// Whether a token is a name: it is spelled as an identifier, and is no word of VHDL and none that the text of an entity uses. It
/// takes no memory.
#[inline(always)]
pub fn is_name(token: &[u8]) -> bool
    ensures { result ≡ tokens.is_name token.now }
{
    match token.first() {
        None => false,
        Some(first) => first.is_ascii_alphabetic() && !is_word(token),
    }
}

/// Whether a token is a word of VHDL, or one that the text of an entity uses. Its second byte tells it of most names.
fn is_word(token: &[u8]) -> bool
    ensures { result ≡ is_vhdl_word token.now }
{
    could_be_word(token) && is_vhdl_word(token)
}

macro_rules! second_of_no_word {
    ($b:expr) => {
        (b'1' <= $b && $b <= b'9')
            || $b == b'_'
            || $b == b'd'
            || $b == b'D'
            || $b == b'g'
            || $b == b'G'
            || $b == b'j'
            || $b == b'J'
            || $b == b'k'
            || $b == b'K'
            || $b == b'q'
            || $b == b'Q'
            || $b == b'v'
            || $b == b'V'
            || $b == b'w'
            || $b == b'W'
            || $b == b'z'
            || $b == b'Z'
    };
}

/// Of each byte, whether it is the second of no word of VHDL, whatever the case of its letter.
static SECONDS_OF_NO_WORD: [bool; 256] = byte_table!(second_of_no_word);

/// Whether a byte is the second of no word of VHDL, whatever the case of its letter, by one look.
#[inline(always)]
fn is_second_of_no_word(byte: u8) -> bool
    ensures { result ≡ is_second_of_no_word byte }
{
    SECONDS_OF_NO_WORD[usize::from(byte)]
}

/// Whether the second byte of a token is that of a word of VHDL, whatever the case of its letter. It spares most names the
/// look-up among the words.
fn could_be_word(token: &[u8]) -> bool
    ensures { result ≡ false → is_vhdl_word token.now ≡ false }
{
    if token.len() < 2 {
        return false;
    }
    !is_second_of_no_word(token[1])
}

/// Whether a token is a string. It takes no memory.
pub fn is_string(token: &[u8]) -> bool
    ensures { result ≡ spec.is_string token.now }
{
    match token.first() {
        None => false,
        Some(first) => *first == b'"',
    }
}

/// Whether these bytes are equal. Of one byte, as most words are, it takes no call.
#[inline(always)]
#[tactic(auto, using(crate::proofs::SameBytes::same_byte))]
fn are_equal(token: &[u8], word: &[u8]) -> bool
    ensures { result ≡ bytes_eq token.now word.now }
{
    match (token, word) {
        ([byte], [other]) => byte == other,
        _ => token == word,
    }
}

/// Whether two tokens stand for the same, compared byte by byte.
fn is_same_by_letters(token: &[u8], word: &[u8]) -> bool
    ensures { result ≡ spec.is_same token.now word.now }
{
    match token.first() {
        Some(b'\'') => token == word,
        _ => token.eq_ignore_ascii_case(word),
    }
}

/// Whether two tokens stand for the same: character literals where they are equal, and all others whatever the case of their
/// letters. It takes no memory. Those that are spelled alike, as nearly all are, are found by one comparison, and those of other
/// lengths by their lengths.
#[inline(always)]
#[tactic(auto, using(crate::proofs::SameBytes::same_bytes))]
pub fn is_same(token: &[u8], word: &[u8]) -> bool
    ensures { result ≡ spec.is_same token.now word.now }
{
    token.len() == word.len() && (are_equal(token, word) || is_same_by_letters(token, word))
}

/// What stands between the quotation marks of a string.
fn text_of(token: &[u8]) -> &[u8]
    ensures { result.now ≡ spec.text_of token.now }
{
    match token.split_first() {
        None => &[],
        Some((_, rest)) => rest.split_at(rest.len().saturating_sub(1)).0,
    }
}

/// Whether a token is a string of these bytes, whatever the case of their letters. It takes no memory.
pub fn is_quoted(token: &[u8], bytes: &[u8]) -> bool
    ensures { result ≡ spec.is_quoted token.now bytes.now }
{
    is_string(token) && text_of(token).eq_ignore_ascii_case(bytes)
}
