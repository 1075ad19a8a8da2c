//! A Liberty text, or the front of one, to its groups.

ghost use Rattle.std.specs.Prelude.{◌≡◌, IfOk};
ghost use Rattle.std.specs.Prelude.{length, OnOk};
ghost use Rattle.grammar_rules.specs.Reading.{read};
ghost use Rattle.liberty_text.specs.Scanner.{scan_of};
ghost use Rattle.liberty_groups.specs.Lexeme.{lexemes_of, LieInside};
ghost use Rattle.liberty_groups.specs.Library.{Found, nothing_found, found_of, library};
ghost use Rattle.liberty_groups.specs.Answer.{found_of_bytes, end_of_bytes, halt_of, found_in, outcome_of};
ghost use Rattle.liberty_groups.specs.Answer.{may_become_other, closed_has_outline, goes_on_after, may_go_on, fault_of, is_last};
ghost use Rattle.liberty_groups.specs.Answer.{is_unfinished, end_of, IsReading, Is, HasOneReading};
ghost use Rattle.liberty_groups.specs.FirstMisfit.{FaultsAreFirst};

use crate::contents::Contents;
use crate::cursor::Cursor;
use crate::fault::{LibraryFault, Refusal, Stop, fault_at, lexical_fault};
use liberty_text::{Kept, KeptScan, Stop as TextStop, TokenKind, scan_kept};
use std::alloc::{AllocError, Global};

/// What is kept of a library text, and how its reading ended.
#[derive(Drop)]
pub struct Reading {
    /// What ended before the place of the fault.
    pub found: Contents,
    pub end: End,
}

/// How a reading ended.
#[derive(Clone, Copy, PartialEq, Eq)]
pub enum End {
    /// The bytes are a library text.
    Whole,
    /// The bytes are the front of a file, and some library text begins with them.
    Cut,
    Fault(LibraryFault),
}

/// Where the tokens of a library halt.
#[derive(Clone, Copy)]
pub enum Halt {
    /// They are a library.
    Whole,
    /// They end too early.
    Short(Refusal),
    /// The token at an offset is refused. It may be unfinished, the front of another one.
    Refused {
        refusal: Refusal,
        at: usize,
        unfinished: bool,
    },
}

/// Whether a refused word at the end of the bytes may be the front of a token that is not refused.
fn may_become_other(is_only: bool, word: &[u8]) -> bool
    ensures { result ≡ may_become_other is_only word.now }
{
    word == b"/".as_slice() || (is_only && b"library/".as_slice().starts_with(word))
}

impl Cursor<'_> {
    /// Whether the next token is refused only because the bytes, of this length, end in it.
    pub fn is_unfinished(&self, len: usize, is_only: bool) -> bool
        ensures { result ≡ is_unfinished len is_only self.now }
    {
        match self.peek() {
            Some(token) => {
                self.is_last()
                    && token.kind == TokenKind::Word
                    && token.end == len
                    && may_become_other(is_only, self.bytes())
            }
            None => false,
        }
    }
}

/// Where the tokens of a text halt, of which `found` keeps what is kept.
#[tactic(auto, unfolding(crate::specs::Answer::outcome_of))]
fn read_tokens(
    alloc: Global,
    bytes: &[u8],
    tokens: Vec<Kept>,
    found: &mut Contents,
) -> Result<Halt, AllocError>
    requires inside { LieInside bytes.now tokens.items }
    requires nothing { found_of found.old ≡ nothing_found }
    ensures halt { IfOk result (λ halt. halt ≡ halt_of (length bytes.now) (is_last (lexemes_of bytes.now tokens.items))
        (read library (lexemes_of bytes.now tokens.items))) }
    ensures found { OnOk result (found_of found.new ≡ found_in (read library (lexemes_of bytes.now tokens.items))) }
{
    let mut cursor = Cursor::new(bytes, tokens);
    let is_only = cursor.is_last();
    let refusal = match cursor.library(alloc, found) {
        Ok(()) => return Ok(Halt::Whole),
        Err(Stop::Memory) => return Err(AllocError),
        Err(Stop::Refused(refusal)) => refusal,
    };
    Ok(match cursor.peek() {
        None => Halt::Short(refusal),
        Some(token) => Halt::Refused {
            refusal,
            at: token.at,
            unfinished: cursor.is_unfinished(bytes.len(), is_only),
        },
    })
}

/// The tokens of a text up to the place where it stops, and what stops it there.
#[tactic(auto, using(crate::proofs::Inside::lie_inside))]
fn tokens_of(alloc: Global, bytes: &[u8]) -> Result<KeptScan, AllocError>
    ensures tokens { IfOk result (λ found. found.tokens.items ≡ (scan_of bytes.now).0) }
    ensures stop { IfOk result (λ found. found.stop ≡ (scan_of bytes.now).1) }
    ensures inside { IfOk result (λ found. LieInside bytes.now found.tokens.items) }
{
    Ok(scan_kept(alloc, bytes)?)
}

/// Whether the bytes, which end in an open text, are the front of a library once it is closed.
fn closed_has_outline(alloc: Global, bytes: &[u8]) -> Result<bool, AllocError>
    ensures { IfOk result (λ is. is ≡ closed_has_outline bytes.now) }
{
    let mut closed = Vec::from_slice(alloc, bytes)?;
    closed.extend_from_slice(b" \"")?;
    let KeptScan { tokens, .. } = tokens_of(alloc, &closed)?;
    Ok(Cursor::new(&closed, tokens).has_outline())
}

/// Whether some library text begins with bytes whose tokens are the front of a library.
fn goes_on_after(alloc: Global, bytes: &[u8], stop: TextStop) -> Result<bool, AllocError>
    ensures { IfOk result (λ does. does ≡ goes_on_after bytes.now stop) }
{
    match stop {
        TextStop::BadByte(_) => Ok(false),
        TextStop::OpenText(_) => closed_has_outline(alloc, bytes),
        _ => Ok(true),
    }
}

/// Whether some library text begins with the bytes.
fn may_go_on(alloc: Global, bytes: &[u8], halt: Halt, stop: TextStop) -> Result<bool, AllocError>
    ensures { IfOk result (λ may. may ≡ may_go_on bytes.now halt stop) }
{
    match halt {
        Halt::Refused { unfinished, .. } => Ok(stop == TextStop::End && unfinished),
        _ => goes_on_after(alloc, bytes, stop),
    }
}

/// The first fault of a text of this length that halts and stops so.
pub fn fault_of(len: usize, halt: Halt, stop: TextStop) -> Option<LibraryFault>
    ensures { result ≡ fault_of len halt stop }
{
    match halt {
        Halt::Whole => lexical_fault(stop),
        Halt::Short(refusal) => Some(lexical_fault(stop).unwrap_or(fault_at(refusal, len))),
        Halt::Refused { refusal, at, .. } => Some(fault_at(refusal, at)),
    }
}

/// How the reading ended: whole, cut, or with its fault.
fn end_of(
    alloc: Global,
    bytes: &[u8],
    whole: bool,
    halt: Halt,
    stop: TextStop,
) -> Result<End, AllocError>
    ensures { IfOk result (λ end. end ≡ end_of bytes.now whole halt stop) }
{
    if !whole && may_go_on(alloc, bytes, halt, stop)? {
        return Ok(End::Cut);
    }
    Ok(match fault_of(bytes.len(), halt, stop) {
        None => End::Whole,
        Some(fault) => End::Fault(fault),
    })
}

/// `read_library`, step by step.
#[tactic(auto, unfolding(crate::specs::Answer::outcome_of))]
fn read_exactly(alloc: Global, bytes: &[u8], whole: bool) -> Result<Reading, AllocError>
    ensures found { IfOk result (λ r. found_of r.found ≡ found_of_bytes bytes.now) }
    ensures end { IfOk result (λ r. r.end ≡ end_of_bytes bytes.now whole) }
{
    let mut found = Contents::new(alloc);
    let KeptScan { tokens, stop } = tokens_of(alloc, bytes)?;
    let halt = read_tokens(alloc, bytes, tokens, &mut found)?;
    let end = end_of(alloc, bytes, whole, halt, stop)?;
    Ok(Reading { found, end })
}

/// The groups of a Liberty text (Liberty Reference Manual, general syntax of a library file). With
/// `whole` false the bytes are only the front of a file.
///
/// The fault is the first token with which no library text goes on, the byte, text or comment that
/// stops the tokens, or the end of the bytes, whichever comes first.
pub fn read_library(alloc: Global, bytes: &[u8], whole: bool) -> Result<Reading, AllocError>
    // What is answered is what the definition relates to the bytes.
    ensures reading { IfOk result (λ r. IsReading bytes.now whole (found_of r.found) r.end) }
    // What the definition relates to the bytes is answered, unless memory runs out.
    ensures only { (found : Found) (end : End) → IsReading bytes.now whole found end → IfOk result (λ r. Is r found end) }
    // The same as a function of the bytes.
    ensures found { IfOk result (λ r. found_of r.found ≡ found_of_bytes bytes.now) }
    ensures end { IfOk result (λ r. r.end ≡ end_of_bytes bytes.now whole) }
{
    read_exactly(alloc, bytes, whole)
}

/// A law: whatever the bytes are, they have exactly one reading.
pub fn one_reading(bytes: &[u8], whole: bool)
    ensures { HasOneReading bytes.now whole }
{}

/// A law: a fault of the grammar is at the first token with which no library text goes on, or at the end of the bytes. Some
/// library text begins with the bytes before it, and none with the bytes up to the end of that token.
#[tactic(auto, using(crate::proofs::FirstMisfits::faults_are_first))]
pub fn faults_are_first(bytes: &[u8])
    ensures { FaultsAreFirst bytes.now }
{}
