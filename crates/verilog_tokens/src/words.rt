//! The words of Verilog, and which tokens are names.

ghost use Rattle.std.specs.Prelude.{◌≡◌, ◌||◌, ◌==◌};
ghost use Rattle.std.specs.Char.{is_ascii_alphabetic};
ghost use Rattle.std.specs.List.{list_any};
ghost use Rattle.std.specs.Str.{bytes_eq};
ghost use Rattle.verilog_tokens.specs.Words.{is_verilog_word, begins_small};
ghost use Rattle.verilog_tokens.specs.Tokens as tokens;

use crate::word_groups::words_from;

/// Whether these bytes are a word of Verilog, which is no name. It takes no memory.
#[inline(always)]
pub fn is_verilog_word(name: &[u8]) -> bool
    ensures { result ≡ is_verilog_word name.now }
{
    match name {
        [first, ..] => is_among(name, words_from(*first)),
        [] => false,
    }
}

/// Whether these bytes are one of the words.
#[inline(always)]
fn is_among(name: &[u8], words: &[&[u8]]) -> bool
    ensures { result ≡ list_any (λ word. bytes_eq name.now word.now) words.now }
{
    words.iter().any(|word| name == *word)
}

/// Whether an identifier begins with this byte.
#[inline(always)]
fn begins_identifier(byte: u8) -> bool
    ensures { result ≡ (is_ascii_alphabetic byte || byte == 95) }
{
    byte.is_ascii_alphabetic() || byte == b'_'
}

/// Whether bytes begin with a small letter, as those of each word of Verilog behind its first letter do.
#[inline(always)]
fn begins_small(bytes: &[u8]) -> bool
    ensures { result ≡ begins_small bytes.now }
{
    match bytes.first() {
        None => false,
        Some(first) => first.is_ascii_lowercase(),
    }
}

/// Whether a token is a name: it is spelled as an identifier, and is no word of Verilog. It takes no memory.
#[inline(always)]
#[tactic(auto, using(crate::proofs::NoWord::no_word))]
pub fn is_name(token: &[u8]) -> bool
    ensures { result ≡ tokens.is_name token.now }
{
    let [first, rest @ ..] = token else {
        return false;
    };
    if !begins_identifier(*first) {
        return false;
    }
    if !begins_small(rest) {
        return true;
    }
    !is_verilog_word(token)
}
