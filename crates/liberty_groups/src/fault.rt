//! Why a text is no library text.

ghost use Rattle.std.specs.Prelude.{◌≡◌, Some};
ghost use Rattle.liberty_groups.specs.Fault.{expected_text, fault_text, fault_place, fault_at, lexical_fault};
ghost use Rattle.liberty_groups.specs.declared.fault.Stop.TheVariants.{Memory as NoMemory};

use liberty_text::Stop as TextStop;
use std::alloc::{AllocError, AllocFailed};
use std::fmt;
use thiserror::Error;

/// What stood to be read at the place of a syntax fault.
#[derive(Clone, Copy, Debug, PartialEq, Eq, Error)]
pub enum Expected {
    /// A statement or `}`.
    Statement,
    /// A colon or an opening bracket, after a statement's name.
    AfterName,
    /// What opens the library: `(` after its name, `{` after its arguments.
    Opening,
    /// An argument, a comma or `)`.
    Argument,
    /// A part of a value, or what ends it.
    Value,
    /// The end of the file, after the library.
    FileEnd,
}

impl fmt::Display for Expected {
    ghost output = { λ x. Some (expected_text x) };

    fn fmt<W: fmt::Write>(&self, f: &mut fmt::Formatter<W>) -> fmt::Result {
        let text = match self {
            Expected::Statement => "expected statement",
            Expected::AfterName => "expected colon or bracket",
            Expected::Opening => "expected opening",
            Expected::Argument => "expected argument",
            Expected::Value => "expected value",
            Expected::FileEnd => "expected end of file",
        };
        f.pad(text)
    }
}

/// Why a text is no library text: its first fault. An offset counts bytes from 0.
#[derive(Clone, Copy, Debug, PartialEq, Eq, Error)]
pub enum LibraryFault {
    /// The byte at this offset stands outside texts and comments and begins no token.
    BadByte(usize),
    /// The text that begins at this offset does not close.
    OpenText(usize),
    /// The comment that begins at this offset does not close.
    OpenComment(usize),
    /// No library text goes on with the token at this offset, or ends there.
    Syntax { at: usize, expected: Expected },
    /// The brace at this offset would open a 33rd group inside one another.
    TooDeep(usize),
    /// The first token, at this offset, is not the word `library`, or there is none in so many bytes.
    NotLibrary(usize),
}

impl fmt::Display for LibraryFault {
    ghost output = { λ x. Some (fault_text x) };

    fn fmt<W: fmt::Write>(&self, f: &mut fmt::Formatter<W>) -> fmt::Result {
        let text = match self {
            LibraryFault::BadByte(_) => "byte",
            LibraryFault::OpenText(_) => "text not closed",
            LibraryFault::OpenComment(_) => "comment not closed",
            LibraryFault::Syntax { expected, .. } => return expected.fmt(f),
            LibraryFault::TooDeep(_) => "too deep",
            LibraryFault::NotLibrary(_) => "not a library",
        };
        f.pad(text)
    }
}

impl LibraryFault {
    /// The offset of the fault.
    pub fn at(&self) -> usize
        ensures { result ≡ fault_place self.now }
    {
        match self {
            LibraryFault::BadByte(at)
            | LibraryFault::OpenText(at)
            | LibraryFault::OpenComment(at)
            | LibraryFault::TooDeep(at)
            | LibraryFault::NotLibrary(at) => *at,
            LibraryFault::Syntax { at, .. } => *at,
        }
    }
}

/// The fault of a refusal at an offset.
pub fn fault_at(refusal: Refusal, at: usize) -> LibraryFault
    ensures { result ≡ fault_at refusal at }
{
    match refusal {
        Refusal::Syntax(expected) => LibraryFault::Syntax { at, expected },
        Refusal::TooDeep => LibraryFault::TooDeep(at),
        Refusal::NotLibrary => LibraryFault::NotLibrary(at),
    }
}

/// The fault with which the tokens of a text stop.
pub fn lexical_fault(stop: TextStop) -> Option<LibraryFault>
    ensures { result ≡ lexical_fault stop }
{
    match stop {
        TextStop::End => None,
        TextStop::BadByte(at) | TextStop::OpenContinuation(at) => Some(LibraryFault::BadByte(at)),
        TextStop::OpenText(at) => Some(LibraryFault::OpenText(at)),
        TextStop::OpenComment(at) => Some(LibraryFault::OpenComment(at)),
    }
}

/// Why a token, or the end of the tokens, is refused at its place.
#[derive(Clone, Copy)]
pub enum Refusal {
    Syntax(Expected),
    TooDeep,
    NotLibrary,
}

/// Why a reading stopped before its end.
#[derive(Clone, Copy)]
pub enum Stop {
    /// At the next token, or at the end of the tokens.
    Refused(Refusal),
    Memory,
}

impl From<AllocError> for Stop {
    ghost from_gives = { λ _ e. e ≡ NoMemory };

    fn from(_e: AllocError) -> Stop {
        Stop::Memory
    }
}

impl<T: Drop> From<AllocFailed<T>> for Stop {
    ghost from_gives = { λ _ e. e ≡ NoMemory };

    fn from(_e: AllocFailed<T>) -> Stop {
        Stop::Memory
    }
}
