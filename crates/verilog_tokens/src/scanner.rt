//! Verilog text to tokens.

ghost use Rattle.std.specs.Prelude.{◌≡◌, IfOk};
ghost use Rattle.verilog_tokens.specs.Tokens.{scan_of};
ghost use Rattle.lexer.specs.Spans.{LieInside};
ghost use Rattle.verilog_tokens.specs.Spans.{tokens_of};

use crate::fronts::{is_open_after, separator_length, token_length};
use lexer::{Lexicon, Scan, TokenState};
use std::alloc::{AllocError, Global};

/// Whether a table is open: what the tokens so far say of those that follow.
#[derive(Clone, Copy)]
pub struct InTable(bool);

impl Lexicon for InTable {
    ghost use Rattle.verilog_tokens.specs.Tokens as spec;
    ghost use Rattle.std.proofs.Common.{rules};

    ghost lexis = { spec.lexis };

    #[inline(always)]
    fn separator_length(bytes: &[u8]) -> usize {
        separator_length(bytes)
    }

    ghost blank_length = { Prim.search rules };
}

impl<'a> TokenState<'a> for InTable {
    ghost flag = { λ s. s.0 };

    #[inline(always)]
    fn start() -> InTable {
        InTable(false)
    }

    #[inline(always)]
    #[tactic(auto, using(crate::proofs::TokenFirst::no_separator))]
    fn token_length(&self, bytes: &[u8]) -> usize {
        token_length(self.0, bytes)
    }

    #[inline(always)]
    fn after(&self, token: &'a [u8]) -> InTable {
        InTable(is_open_after(self.0, token))
    }
}

/// The tokens of a Verilog text before its lexical fault, and the offset of the fault, if there is one.
pub fn scan(alloc: Global, text: &[u8]) -> Result<Scan, AllocError>
    ensures tokens { IfOk result (λ found. tokens_of text.now found.tokens.items ≡ (scan_of text.now).0) }
    ensures fault { IfOk result (λ found. found.fault ≡ (scan_of text.now).1) }
    ensures inside { IfOk result (λ found. LieInside text.now found.tokens.items) }
{
    lexer::scan::<InTable>(alloc, text)
}
