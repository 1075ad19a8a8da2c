//! The tokens of whole Liberty texts.

ghost use Rattle.std.specs.Prelude.{◌≡◌, length, All, IfOk, IfErr};
ghost use Rattle.liberty_text.specs.declared.token.Stop.TheVariants.{End};
ghost use Rattle.liberty_text.specs.Scanner.{scan_of};
ghost use Rattle.liberty_text.specs.TokenLaws.{IsInside, AreInOrder};
ghost use Rattle.liberty_text.specs.Tokens.{Reads, AreTokensOf, IsFaultOf};

use crate::kept::{Kept, KeptScan};
use crate::scanner::Scanner;
use crate::token::{Scan, Stop, TextFault, Token};
use std::alloc::{AllocError, Global};

/// The tokens of a text up to the place where it stops, and what stops it there.
#[tactic(auto, using(crate::proofs::Sound::reads, crate::proofs::Places::all_inside, crate::proofs::Places::all_in_order))]
pub fn scan(alloc: Global, bytes: &[u8]) -> Result<Scan, AllocError>
    ensures grammar { IfOk result (λ found. Reads bytes.now found.tokens.items found.stop) }
    ensures tokens { IfOk result (λ found. found.tokens.items ≡ (scan_of bytes.now).0) }
    ensures stop { IfOk result (λ found. found.stop ≡ (scan_of bytes.now).1) }
    ensures inside { IfOk result (λ found. All (IsInside (length bytes.now)) found.tokens.items) }
    ensures in_order { IfOk result (λ found. AreInOrder 0 found.tokens.items) }
{
    scan_out(alloc, bytes)
}

/// The tokens of a text up to the place where it stops, in eight bytes each, and what stops it there. There is no memory for a
/// token that begins at 4 GiB or later, or has 256 MiB or more.
#[tactic(auto, using(crate::proofs::Places::all_inside))]
pub fn scan_kept(alloc: Global, bytes: &[u8]) -> Result<KeptScan, AllocError>
    ensures tokens { IfOk result (λ found. found.tokens.items ≡ (scan_of bytes.now).0) }
    ensures stop { IfOk result (λ found. found.stop ≡ (scan_of bytes.now).1) }
    ensures inside { IfOk result (λ found. All (IsInside (length bytes.now)) found.tokens.items) }
{
    scan_bytes(alloc, bytes)
}

/// `scan_kept`, step by step.
fn scan_bytes(alloc: Global, bytes: &[u8]) -> Result<KeptScan, AllocError>
    ensures tokens { IfOk result (λ found. found.tokens.items ≡ (scan_of bytes.now).0) }
    ensures stop { IfOk result (λ found. found.stop ≡ (scan_of bytes.now).1) }
{
    let mut scanner = Scanner::new(alloc);
    for (at, byte) in bytes.iter().enumerate() {
        scanner.step(at, *byte)?;
    }
    scanner.finish(bytes.len())
}

/// `scan`, by way of the tokens in eight bytes each.
fn scan_out(alloc: Global, bytes: &[u8]) -> Result<Scan, AllocError>
    ensures tokens { IfOk result (λ found. found.tokens.items ≡ (scan_of bytes.now).0) }
    ensures stop { IfOk result (λ found. found.stop ≡ (scan_of bytes.now).1) }
{
    let KeptScan { tokens, stop } = scan_bytes(alloc, bytes)?;
    let tokens = tokens_out(alloc, &tokens)?;
    Ok(Scan { tokens, stop })
}

/// The tokens that are kept.
fn tokens_out(alloc: Global, kept: &[Kept]) -> Result<Vec<Token>, AllocError>
    ensures { IfOk result (λ tokens. tokens.items ≡ kept.now) }
{
    let mut tokens = Vec::with_capacity(alloc, kept.len())?;
    for one in kept {
        tokens.push(one.token())?;
    }
    Ok(tokens)
}

/// The tokens of a text, or its first fault.
pub fn tokens(alloc: Global, bytes: &[u8]) -> Result<Vec<Token>, TextFault>
    ensures read { IfOk result (λ found. AreTokensOf found.items bytes.now) }
    ensures fault { IfErr result (λ fault. IsFaultOf fault bytes.now) }
    ensures exact { IfOk result (λ found. scan_of bytes.now ≡ (found.items, End)) }
    ensures inside { IfOk result (λ found. All (IsInside (length bytes.now)) found.items) }
    ensures in_order { IfOk result (λ found. AreInOrder 0 found.items) }
{
    let Ok(Scan { tokens, stop }) = scan(alloc, bytes) else {
        return Err(TextFault::Memory);
    };
    match stop {
        Stop::End => Ok(tokens),
        Stop::BadByte(at) | Stop::OpenContinuation(at) => Err(TextFault::BadByte(at)),
        Stop::OpenText(at) => Err(TextFault::OpenText(at)),
        Stop::OpenComment(at) => Err(TextFault::OpenComment(at)),
    }
}
