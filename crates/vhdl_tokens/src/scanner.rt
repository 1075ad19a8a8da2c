//! VHDL text to tokens.

ghost use Rattle.std.specs.Prelude.{◌≡◌, ◌≤◌, length, IfOk};
ghost use Rattle.vhdl_tokens.specs.Tokens.{scan_of};
ghost use Rattle.lexer.specs.Spans.{LieInside};
ghost use Rattle.vhdl_tokens.specs.Spans.{tokens_of};

use crate::fronts::token_length;
use lexer::{Lexicon, Scan, TokenState, line_separator_length};
use std::alloc::{AllocError, Global};

/// The bytes of the last token, of which it is asked only at an apostrophe whether they are a name. None stand before the first.
#[derive(Clone, Copy)]
pub struct LastToken<'a>(&'a [u8]);

impl<'a> Lexicon for LastToken<'a> {
    ghost use Rattle.vhdl_tokens.specs.Tokens as spec;
    ghost use Rattle.std.proofs.Common.{rules};

    ghost lexis = { spec.lexis };

    #[inline(always)]
    fn separator_length(bytes: &[u8]) -> usize
        ensures value { result ≡ spec.separator_length bytes.now }
        ensures within { result ≤ length bytes.now }
    {
        line_separator_length(b'-', bytes)
    }

    ghost blank_length = { Prim.search rules };
}

impl<'a> TokenState<'a> for LastToken<'a> {
    ghost use Rattle.vhdl_tokens.specs.Tokens as spec;

    ghost flag = { λ last. spec.is_name last.0.now };

    #[inline(always)]
    fn start() -> LastToken<'a> {
        LastToken(&[])
    }

    #[inline(always)]
    #[tactic(auto, using(crate::proofs::TokenFirst::no_separator))]
    fn token_length(&self, bytes: &[u8]) -> usize {
        token_length(self.0, bytes)
    }

    #[inline(always)]
    fn after(&self, token: &'a [u8]) -> LastToken<'a> {
        LastToken(token)
    }
}

/// The tokens of a VHDL text before its lexical fault, and the offset of the fault, if there is one.
pub fn scan(alloc: Global, text: &[u8]) -> Result<Scan, AllocError>
    ensures tokens { IfOk result (λ found. tokens_of text.now found.tokens.items ≡ (scan_of text.now).0) }
    ensures fault { IfOk result (λ found. found.fault ≡ (scan_of text.now).1) }
    ensures inside { IfOk result (λ found. LieInside text.now found.tokens.items) }
{
    lexer::scan::<LastToken<'_>>(alloc, text)
}
