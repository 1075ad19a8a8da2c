//! What the tokens of a Liberty text are, and what can stop a reading of them.

use thiserror::Error;

/// What a token is.
#[derive(Clone, Copy, PartialEq, Eq)]
pub enum TokenKind {
    /// A run of printable ASCII bytes that are no space, mark, double quote or backslash.
    Word,
    /// What stands between two double quotes, with the quotes.
    Text,
    /// One of the bytes `{`, `}`, `(` and `)`.
    Brace(u8),
    Colon,
    Semicolon,
    Comma,
}

/// A token of a Liberty text: its bytes are those from offset `at` up to, but not including, `end`.
#[derive(Clone, Copy, PartialEq, Eq)]
pub struct Token {
    pub kind: TokenKind,
    pub at: usize,
    pub end: usize,
    /// Whether a line ends between the token before and this one (for the first: before it).
    pub line_before: bool,
}

/// Where a reading of tokens stops. An offset counts bytes from 0.
#[derive(Clone, Copy, PartialEq, Eq)]
pub enum Stop {
    /// All bytes were read. A Word that ends where they end may be half a Word.
    End,
    /// The byte at this offset stands outside texts and comments and begins no token, also with
    /// any bytes after those that are there.
    BadByte(usize),
    /// The text that begins at this offset does not close.
    OpenText(usize),
    /// The comment that begins at this offset does not close.
    OpenComment(usize),
    /// Nothing but blanks stands after the backslash at this offset, so a line end may follow.
    OpenContinuation(usize),
}

/// The tokens before the place where a reading stopped, and what stopped it.
#[derive(Drop)]
pub struct Scan {
    pub tokens: Vec<Token>,
    pub stop: Stop,
}

/// Why a text has no list of tokens: its first fault. An offset counts bytes from 0.
#[derive(Debug, Drop, Error)]
pub enum TextFault {
    /// The byte at this offset stands outside texts and comments and begins no token.
    #[error("byte {0} begins no token")]
    BadByte(usize),
    /// The text that begins at this offset does not close.
    #[error("the text at byte {0} does not close")]
    OpenText(usize),
    /// The comment that begins at this offset does not close.
    #[error("the comment at byte {0} does not close")]
    OpenComment(usize),
    /// There was no memory for the tokens.
    #[error("out of memory")]
    Memory,
}
