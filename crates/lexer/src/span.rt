//! What a scan of a text gives.

ghost use Rattle.std.specs.Prelude.{◌≡◌, ◌+◌, ◌<◌, ◌^◌};
ghost use Rattle.lexer.specs.Spans.{span};

use std::marker::Model;

/// Where a token stands: its bytes are those from offset `at` up to, but not including, `end`.
#[derive(Clone, Copy)]
pub struct Span {
    /// Counted in bytes from 0.
    pub at: usize,
    /// Counted in bytes from 0.
    pub end: usize,
}

/// Where a token stands, in eight bytes. Contracts see the place.
#[derive(Drop)]
pub struct KeptSpan {
    at: u32,
    length: u32,
}

impl Model for KeptSpan {
    ghost use Rattle.lexer.specs.declared.span.Span.{Span};
    ghost use Rattle.lexer.specs.Spans.{span};

    ghost Value = { Span };

    ghost view = { λ k. span k.at k.length };
}

impl KeptSpan {
    /// The place of a token of so many bytes.
    #[inline(always)]
    pub(crate) fn new(at: usize, length: usize) -> KeptSpan
        requires { at + length < 2 ^ 32 }
        ensures { result ≡ span at length }
    {
        KeptSpan {
            at: at as u32,
            length: length as u32,
        }
    }

    /// The place.
    #[inline(always)]
    pub fn span(&self) -> Span
        ensures { result ≡ self.now }
    {
        let at = self.at as usize;
        Span {
            at,
            end: at + self.length as usize,
        }
    }
}

/// The tokens of a text before its lexical fault, and the offset of the fault, if there is one.
#[derive(Drop)]
pub struct Scan {
    /// In the order of their offsets.
    pub tokens: Vec<KeptSpan>,
    /// Where no token begins and nothing separates tokens.
    pub fault: Option<usize>,
}
