//! What names in VHDL text are made of, and which could be those of other things.
ghost use Rattle.std.specs.Prelude.{◌≡◌, false};
ghost use Rattle.std.specs.Char.{is_ascii_alphanumeric};
ghost use Rattle.vhdl_tokens.specs.Kept.{goes_on, is_identifier, is_plain, begins, is_numbered, is_free};

use crate::words::is_vhdl_word;
use lexer::{ByteClass, are_all, is_number};

/// Whether the name could be one of no other kind: it is no word, does not begin with `vital` and is not `pin` followed by a
/// number, whatever the case of its letters.
#[tactic(auto, unfolding(crate::specs::Kept::is_free))]
pub fn is_free(name: &[u8]) -> bool
    ensures { result ≡ is_free name.now }
{
    !is_vhdl_word(name) && !begins(b"vital", name) && !is_numbered(b"pin", name)
}

/// Whether the name is a letter followed by letters, digits and single `_`, not one at the end.
pub fn is_identifier(name: &[u8]) -> bool
    ensures { result ≡ is_identifier name.now }
{
    match name.split_first() {
        None => false,
        Some((first, others)) => first.is_ascii_alphabetic() && goes_on(others),
    }
}

/// Whether the bytes are letters, digits and single `_`, not one at the end.
fn goes_on(bytes: &[u8]) -> bool
    ensures { result ≡ goes_on false bytes.now }
{
    let mut under = false;
    for byte in bytes {
        let next = *byte == b'_';
        if if next {
            under
        } else {
            !byte.is_ascii_alphanumeric()
        } {
            return false;
        }
        under = next;
    }
    !under
}

/// Letters and digits.
struct Alphanumeric;

impl ByteClass for Alphanumeric {
    ghost has = { is_ascii_alphanumeric };

    fn contains(byte: u8) -> bool {
        byte.is_ascii_alphanumeric()
    }
}

/// Whether the name is a letter followed by letters and digits.
pub fn is_plain(name: &[u8]) -> bool
    ensures { result ≡ is_plain name.now }
{
    match name.split_first() {
        None => false,
        Some((first, others)) => { first.is_ascii_alphabetic() && are_all::<Alphanumeric>(others) }
    }
}

/// Whether the name is this word followed by a number, whatever the case of its letters.
pub fn is_numbered(word: &[u8], name: &[u8]) -> bool
    ensures { result ≡ is_numbered word.now name.now }
{
    begins(word, name) && is_number(&name[word.len()..])
}

/// Whether the name begins with this word, whatever the case of its letters.
fn begins(word: &[u8], name: &[u8]) -> bool
    ensures { result ≡ begins word.now name.now }
{
    if name.len() < word.len() {
        return false;
    }
    for (i, byte) in word.iter().enumerate() {
        if !name[i].eq_ignore_ascii_case(byte) {
            return false;
        }
    }
    true
}
