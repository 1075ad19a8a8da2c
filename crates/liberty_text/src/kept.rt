//! Tokens in eight bytes each.

ghost use Rattle.std.specs.Prelude.{◌≡◌, ◌<◌, ◌≤◌, ◌^◌, IfOk, if◌then◌else◌, true, false};
ghost use Rattle.liberty_text.specs.Scanner.{token};
ghost use Rattle.liberty_text.specs.Kept.{kind_by, size_by, token_by, code_of, is_run};

use crate::token::{Stop, Token, TokenKind};
use std::alloc::{AllocError, Global};
use std::marker::Model;

/// The farthest offset of a token that is kept.
const FARTHEST: usize = 4_294_967_295;

/// The most bytes of a token that is kept.
const LONGEST: usize = 268_435_455;

/// A token as it is kept, in eight bytes. Contracts see the token.
#[derive(Drop)]
pub struct Kept {
    at: u32,
    /// Whether a line ends before it, the code of its kind, and its length or the byte of a brace.
    rest: u32,
}

impl Model for Kept {
    ghost use Rattle.liberty_text.specs.declared.token.Token.{Token};
    ghost use Rattle.liberty_text.specs.Kept.{unpacked};

    ghost Value = { Token };

    ghost view = { λ k. unpacked k.at k.rest };
}

/// The tokens before the place where a reading stopped, in eight bytes each, and what stopped it.
#[derive(Drop)]
pub struct KeptScan {
    pub tokens: Vec<Kept>,
    pub stop: Stop,
}

/// The kind with a code; what stands beside the code is the byte of a brace.
#[inline(always)]
fn kind_by(code: u32, amount: u32) -> TokenKind
    ensures { result ≡ kind_by code amount }
{
    match code {
        0 => TokenKind::Word,
        1 => TokenKind::Text,
        2 => TokenKind::Brace((amount % 256) as u8),
        3 => TokenKind::Colon,
        4 => TokenKind::Semicolon,
        _ => TokenKind::Comma,
    }
}

/// The code of a kind.
#[inline(always)]
fn code_of(kind: TokenKind) -> u32
    ensures value { result ≡ code_of kind }
    ensures few { result < 8 }
{
    match kind {
        TokenKind::Word => 0,
        TokenKind::Text => 1,
        TokenKind::Brace(_) => 2,
        TokenKind::Colon => 3,
        TokenKind::Semicolon => 4,
        TokenKind::Comma => 5,
    }
}

/// What stands beside the code of a token of this kind that has so many bytes: one, unless it is a Word or a text.
#[inline(always)]
#[tactic(auto, using(crate::proofs::Packing::brace_back))]
fn amount_of(kind: TokenKind, size: u32) -> u32
    requires { is_run kind ≡ false → size ≡ 1 }
    ensures kind { kind_by (code_of kind) result ≡ kind }
    ensures size { size_by (code_of kind) result ≡ size }
    ensures few { size < 2 ^ 28 → result < 2 ^ 28 }
{
    if let TokenKind::Brace(byte) = kind {
        return u32::from(byte);
    }
    match kind {
        TokenKind::Word | TokenKind::Text => size,
        _ => 0,
    }
}

/// Whether a token of this kind may have so many bytes.
#[inline(always)]
fn fits(kind: TokenKind, size: u32) -> bool
    ensures { result ≡ true → is_run kind ≡ false → size ≡ 1 }
{
    match kind {
        TokenKind::Word | TokenKind::Text => true,
        _ => size == 1,
    }
}

/// How many bytes a token has; what stands beside the code is the length of a Word or a text.
#[inline(always)]
fn size_by(code: u32, amount: u32) -> u32
    ensures { result ≡ size_by code amount }
{
    if code == 0 || code == 1 { amount } else { 1 }
}

impl Kept {
    /// The token.
    #[inline(always)]
    pub fn token(&self) -> Token
        ensures { result ≡ self.now }
    {
        let code = self.rest / 2 % 8;
        let amount = self.rest / 2 / 8;
        let at = self.at as usize;
        Token {
            kind: kind_by(code, amount),
            at,
            end: at + size_by(code, amount) as usize,
            line_before: self.rest % 2 == 1,
        }
    }

    /// A token of a kind with this code.
    #[tactic(auto, using(crate::proofs::Packing::packed_back))]
    fn packed(at: u32, code: u32, amount: u32, line_before: bool) -> Kept
        requires code { code < 8 }
        requires amount { amount < 2 ^ 28 }
        ensures { result ≡ token_by at code amount (if line_before then 1 else 0) }
    {
        let line = if line_before { 1 } else { 0 };
        Kept {
            at,
            rest: (amount * 8 + code) * 2 + line,
        }
    }

    /// A token from an offset up to another. There is no memory for one that begins at 4 GiB or later, or has 256 MiB or more.
    #[tactic(auto, using(crate::proofs::Packing::kept_back))]
    pub(crate) fn new(
        kind: TokenKind,
        at: usize,
        end: usize,
        line_before: bool,
    ) -> Result<Kept, AllocError>
        ensures { IfOk result (λ kept. kept ≡ token kind at end line_before) }
    {
        if end < at || at > FARTHEST || end - at > LONGEST {
            return Err(AllocError);
        }
        let size = (end - at) as u32;
        if !fits(kind, size) {
            return Err(AllocError);
        }
        let amount = amount_of(kind, size);
        Ok(Kept::packed(at as u32, code_of(kind), amount, line_before))
    }
}

/// The same tokens once more. An `Err` comes only where memory is wanting.
pub fn copy_kept(alloc: Global, tokens: &[Kept]) -> Result<Vec<Kept>, AllocError>
    ensures { IfOk result (λ copy. copy.items ≡ tokens.now) }
{
    let mut copy = Vec::with_capacity(alloc, tokens.len())?;
    for token in tokens {
        copy.push(Kept {
            at: token.at,
            rest: token.rest,
        })?;
    }
    Ok(copy)
}
