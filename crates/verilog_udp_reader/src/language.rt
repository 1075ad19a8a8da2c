//! How Verilog spells names and words. (IEEE 1364-2005, 3.7.)

ghost use Rattle.std.specs.Prelude.{◌≡◌, [], ◌∷◌};
ghost use Rattle.std.specs.Str.{bytes_eq};

use grammar_reader::Language;
use verilog_tokens::is_name;

/// The spelling of Verilog: upper and lower case differ.
pub struct Verilog;

/// A cursor over the tokens of a Verilog text.
pub type Cursor<'a> = grammar_reader::Cursor<'a, Verilog>;

impl Language for Verilog {
    ghost use Rattle.std.specs.Str.{bytes_eq};
    ghost use Rattle.verilog_tokens.specs.Tokens.{is_name};

    ghost is_name = { is_name };

    ghost is_same = { bytes_eq };

    #[inline(always)]
    fn is_name(token: &[u8]) -> bool {
        is_name(token)
    }

    #[inline(always)]
    fn is_same(token: &[u8], word: &[u8]) -> bool {
        is_same(token, word)
    }
}

/// Whether a token is this word. What a known word of one byte takes is one comparison of lengths and one of bytes, and no call.
#[inline(always)]
#[tactic(auto, using(crate::proofs::SameTokens::unlike))]
fn is_same(token: &[u8], word: &[u8]) -> bool
    ensures { result ≡ bytes_eq token.now word.now }
{
    match word {
        [byte] => is_byte(token, *byte),
        _ => token.len() == word.len() && token == word,
    }
}

/// Whether a token is this byte alone.
#[inline(always)]
#[tactic(auto, using(crate::proofs::SameTokens::no_byte, crate::proofs::SameTokens::same_byte, crate::proofs::SameTokens::more_bytes))]
fn is_byte(token: &[u8], byte: u8) -> bool
    ensures { result ≡ bytes_eq token.now (byte ∷ []) }
{
    match token {
        [other] => *other == byte,
        _ => false,
    }
}
