//! How VHDL spells names and words. (IEEE 1076-1993, 13.3 and 13.9.)

use grammar_reader::Language;
use vhdl_tokens::{is_name, is_same};

/// A cursor over the tokens of a VHDL text.
pub type Cursor<'a> = grammar_reader::Cursor<'a, Vhdl>;

/// The spelling of VHDL: upper and lower case are alike, but for character literals.
pub struct Vhdl;

impl Language for Vhdl {
    ghost use Rattle.vhdl_tokens.specs.Tokens.{is_name};
    ghost use Rattle.vhdl_tokens.specs.Spelling.{is_same};

    ghost is_name = { is_name };

    ghost is_same = { is_same };

    fn is_name(token: &[u8]) -> bool {
        is_name(token)
    }

    #[inline(always)]
    fn is_same(token: &[u8], word: &[u8]) -> bool {
        is_same(token, word)
    }
}
