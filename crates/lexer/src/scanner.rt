//! One scanner for the texts of every language.

ghost use Rattle.std.specs.Prelude.{◌≡◌, ◌+◌, ◌<◌, ◌≤◌, ◌^◌, length, drop, true, false, IfOk, Some, vec_len, vec_capacity};
ghost use Rattle.lexer.specs.Tokens.{scan_of};
ghost use Rattle.lexer.specs.Spans.{LieInside, tokens_of, from_here};

use crate::fronts::behind_blanks;
use crate::lexicon::{Lexicon, TokenState};
use crate::span::{KeptSpan, Scan};
use std::alloc::{AllocError, Global};

/// The most bytes of a text whose tokens are kept.
const MOST_BYTES: usize = 4_294_967_295;

/// Where a scan stands: all before the offset `next` is read, and what the tokens before it say of those behind.
#[derive(Clone, Copy)]
struct Scanner<L> {
    before: L,
    next: usize,
}

impl<'a, L: TokenState<'a>> Scanner<L> {
    /// Goes behind the token of so many bytes that stands at an offset. The tokens that were found so far stand apart from the
    /// scanner, so that its place can stay in registers, and have a place for each byte of the text.
    #[inline(always)]
    fn pass_token(&mut self, tokens: &mut Vec<KeptSpan>, text: &'a [u8], at: usize, count: usize)
        requires token { count ≡ L.lexis.token_length (L.flag self.old.before) (drop at text.now) }
        requires alone { 0 ≡ L.lexis.separator_length (drop at text.now) }
        requires some { 0 < count }
        requires here { at + count ≤ length text.now }
        requires short { length text.now < 2 ^ 32 }
        requires inside { LieInside text.now tokens.old.items }
        requires few { vec_len tokens.old ≤ at }
        requires room { length text.now ≤ vec_capacity tokens.old }
        ensures goes_on { from_here L.lexis text.now tokens.new.items (L.flag self.new.before) self.new.next self.new.next ≡ from_here
            L.lexis text.now tokens.old.items (L.flag self.old.before) at at }
        ensures onwards { self.new.next ≡ at + count }
        ensures inside { LieInside text.now tokens.new.items }
        ensures few { vec_len tokens.new ≤ self.new.next }
        ensures room { vec_capacity tokens.new ≡ vec_capacity tokens.old }
    {
        let (_, rest) = text.split_at(at);
        let token = KeptSpan::new(at, count);
        tokens.push_reserved(token);
        self.before = self.before.after(&rest[..count]);
        self.next = at + count;
    }

    /// Goes behind the blanks that stand next, and the separator or the token behind them. False says that there is neither, and
    /// that the text has more. Most tokens are one byte, of which it is known at once what they say of those behind.
    #[inline(always)]
    fn step(&mut self, tokens: &mut Vec<KeptSpan>, text: &'a [u8]) -> bool
        requires here { self.old.next < length text.now }
        requires short { length text.now < 2 ^ 32 }
        requires inside { LieInside text.now tokens.old.items }
        requires few { vec_len tokens.old ≤ self.old.next }
        requires room { length text.now ≤ vec_capacity tokens.old }
        ensures goes_on { result ≡ true
            → from_here L.lexis text.now tokens.new.items (L.flag self.new.before) self.new.next self.new.next ≡ from_here L.lexis
            text.now tokens.old.items (L.flag self.old.before) self.old.next self.old.next }
        ensures onwards { result ≡ true → self.old.next < self.new.next }
        ensures within { self.new.next ≤ length text.now }
        ensures stops { result ≡ false
            → from_here L.lexis text.now tokens.old.items (L.flag self.old.before) self.old.next
            self.old.next ≡ (tokens_of text.now tokens.new.items, Some self.new.next) }
        ensures inside { LieInside text.now tokens.new.items }
        ensures few { vec_len tokens.new ≤ self.new.next }
        ensures room { vec_capacity tokens.new ≡ vec_capacity tokens.old }
    {
        let Some(at) = behind_blanks(text, self.next) else {
            self.next = text.len();
            return true;
        };
        let (_, rest) = text.split_at(at);
        let length = self.before.token_length(rest);
        if length == 1 {
            self.pass_token(tokens, text, at, 1);
            return true;
        }
        if length > 0 {
            self.pass_token(tokens, text, at, length);
            return true;
        }
        let skipped = L::separator_length(rest);
        self.next = at + skipped;
        skipped > 0
    }
}

/// The tokens of a text before its lexical fault, and the offset of the fault, if there is one. There is no memory for those of a
/// text of 4 GiB or more. Room for a token at each byte is asked for at first, of which no more is used than there are tokens.
#[inline(always)]
pub fn scan<'a, L: TokenState<'a>>(alloc: Global, text: &'a [u8]) -> Result<Scan, AllocError>
    ensures tokens { IfOk result (λ found. tokens_of text.now found.tokens.items ≡ (scan_of L.lexis text.now).0) }
    ensures fault { IfOk result (λ found. found.fault ≡ (scan_of L.lexis text.now).1) }
    ensures inside { IfOk result (λ found. LieInside text.now found.tokens.items) }
{
    if text.len() > MOST_BYTES {
        return Err(AllocError);
    }
    let mut tokens = Vec::with_capacity(alloc, text.len())?;
    let mut scanner = Scanner {
        before: L::start(),
        next: 0,
    };
    while scanner.next < text.len() {
        if !scanner.step(&mut tokens, text) {
            tokens.shrink_to_fit();
            return Ok(Scan {
                tokens,
                fault: Some(scanner.next),
            });
        }
    }
    tokens.shrink_to_fit();
    Ok(Scan {
        tokens,
        fault: None,
    })
}
