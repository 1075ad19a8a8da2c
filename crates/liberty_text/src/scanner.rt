//! A scanner that takes the bytes of a Liberty text and keeps its tokens.

ghost use Rattle.std.specs.Prelude.{◌≡◌, ◌++◌, ◌+◌, ◌<◌, ◌≤◌, ◌^◌, ℕ, length, take, OnOk, IfOk};
ghost use Rattle.std.specs.Prelude.{false, [], ◌∷◌};
ghost use Rattle.liberty_text.specs.Scanner.{class_of, token, opened, in_word_by, comment_in_word, in_text, step, closing};
ghost use Rattle.liberty_text.specs.Runs.{mode_behind, tokens_ended, has_mark};
ghost use Rattle.liberty_text.specs.declared.scanner.Mode.TheVariants.{Between};

use crate::bytes_after::{after_comment_byte, after_continuation_byte, slash_at};
use crate::class::{Class, class_of};
use crate::idle::{idle_run, is_mark_byte};
use crate::kept::{Kept, KeptScan};
use crate::token::{Stop, TokenKind};
use std::alloc::{AllocError, Global};

/// What stands open at a place of the text. `line_before` is that of the token to come.
#[derive(Clone, Copy)]
pub enum Mode {
    Between {
        line_before: bool,
    },
    /// `slash` is the offset of the byte before the place, where that is a slash of this word.
    InWord {
        at: usize,
        line_before: bool,
        slash: Option<usize>,
    },
    /// `escaped` says that the byte before the place is a backslash.
    InText {
        at: usize,
        line_before: bool,
        escaped: bool,
    },
    /// `star` says that the byte before the place is a star which may close the comment.
    InComment {
        at: usize,
        line_before: bool,
        star: bool,
    },
    /// After a backslash and blanks, where only blanks and a line end may follow.
    InContinuation {
        at: usize,
        line_before: bool,
    },
    /// After a byte with which no token begins. Nothing more is read.
    Stopped {
        at: usize,
    },
}

/// The tokens of the bytes that were read so far, and what stands open behind them: a text read byte
/// by byte, also in pieces. Each token is kept in eight bytes.
#[derive(Drop)]
pub struct Scanner {
    tokens: Vec<Kept>,
    mode: Mode,
}

impl Scanner {
    /// A scanner that has read no byte.
    pub fn new(alloc: Global) -> Scanner
        ensures tokens { result.tokens.items ≡ [] }
        ensures mode { result.mode ≡ Between false }
    {
        Scanner {
            tokens: Vec::new(alloc),
            mode: Mode::Between { line_before: false },
        }
    }

    /// A scanner that has read no byte, with the memory of this list for its tokens.
    pub fn with_room(mut room: Vec<Kept>) -> Scanner
        ensures tokens { result.tokens.items ≡ [] }
        ensures mode { result.mode ≡ Between false }
    {
        room.clear();
        Scanner {
            tokens: room,
            mode: Mode::Between { line_before: false },
        }
    }

    /// The tokens that have ended, as a list of the caller's.
    pub fn into_tokens(self) -> Vec<Kept>
        ensures { result.items ≡ self.tokens.items }
    {
        let Scanner { tokens, .. } = self;
        tokens
    }

    /// The tokens that have ended.
    pub fn tokens(&self) -> &[Kept]
        ensures { result.now ≡ self.now.tokens.items }
    {
        self.tokens.as_slice()
    }

    /// This much stands open from here on.
    #[inline(always)]
    pub(crate) fn set_mode(&mut self, mode: Mode)
        ensures mode { self.new.mode ≡ mode }
        ensures tokens { self.new.tokens.items ≡ self.old.tokens.items }
    {
        self.mode = mode;
    }

    /// Keeps a token.
    #[inline(always)]
    pub(crate) fn push(
        &mut self,
        kind: TokenKind,
        at: usize,
        end: usize,
        line_before: bool,
    ) -> Result<(), AllocError>
        ensures tokens { OnOk result (self.new.tokens.items ≡ self.old.tokens.items ++ token kind at end line_before ∷ []) }
        ensures mode { self.new.mode ≡ self.old.mode }
    {
        self.tokens.push(Kept::new(kind, at, end, line_before)?)?;
        Ok(())
    }

    /// What stands open behind a byte between tokens. Where the byte is a token, it is kept.
    #[inline(always)]
    pub(crate) fn opened(
        &mut self,
        line_before: bool,
        at: usize,
        byte: u8,
    ) -> Result<Mode, AllocError>
        requires { at + 1 < 2 ^ 64 }
        ensures mode { IfOk result (λ mode. mode ≡ (opened line_before at byte).0) }
        ensures tokens { OnOk result (self.new.tokens.items ≡ self.old.tokens.items ++ (opened line_before at byte).1) }
    {
        Ok(match class_of(byte) {
            Class::LineEnd => Mode::Between { line_before: true },
            Class::Blank => Mode::Between { line_before },
            Class::Mark(kind) => {
                self.push(kind, at, at + 1, line_before)?;
                Mode::Between { line_before: false }
            }
            Class::Quote => Mode::InText {
                at,
                line_before,
                escaped: false,
            },
            Class::Backslash => Mode::InContinuation { at, line_before },
            Class::WordByte => Mode::InWord {
                at,
                line_before,
                slash: slash_at(at, byte),
            },
            Class::Bad => Mode::Stopped { at },
        })
    }

    /// A byte between tokens.
    #[inline(always)]
    fn open(&mut self, line_before: bool, at: usize, byte: u8) -> Result<(), AllocError>
        requires { at + 1 < 2 ^ 64 }
        ensures mode { OnOk result (self.new.mode ≡ (opened line_before at byte).0) }
        ensures tokens { OnOk result (self.new.tokens.items ≡ self.old.tokens.items ++ (opened line_before at byte).1) }
    {
        self.mode = self.opened(line_before, at, byte)?;
        Ok(())
    }

    /// A byte after those of the word that begins at `begun`.
    #[inline(always)]
    fn go_on(&mut self, begun: usize, line: bool, at: usize, byte: u8) -> Result<(), AllocError>
        requires { at + 1 < 2 ^ 64 }
        ensures mode { OnOk result (self.new.mode ≡ (in_word_by begun line at byte (class_of byte)).0) }
        ensures tokens { OnOk result (self.new.tokens.items ≡ self.old.tokens.items
            ++ (in_word_by begun line at byte (class_of byte)).1) }
    {
        if class_of(byte) == Class::WordByte {
            self.mode = Mode::InWord {
                at: begun,
                line_before: line,
                slash: slash_at(at, byte),
            };
            return Ok(());
        }
        self.push(TokenKind::Word, begun, at, line)?;
        self.open(false, at, byte)
    }

    /// The word that begins at `begun` ends before the slash of a comment.
    fn begin_comment(
        &mut self,
        begun: usize,
        line_before: bool,
        slash: usize,
    ) -> Result<(), AllocError>
        ensures mode { OnOk result (self.new.mode ≡ (comment_in_word begun line_before slash).0) }
        ensures tokens { OnOk result (self.new.tokens.items ≡ self.old.tokens.items
            ++ (comment_in_word begun line_before slash).1) }
    {
        let is_word = begun != slash;
        if is_word {
            self.push(TokenKind::Word, begun, slash, line_before)?;
        }
        self.mode = Mode::InComment {
            at: slash,
            line_before: line_before && !is_word,
            star: false,
        };
        Ok(())
    }

    /// A byte of the text that begins at `begun`.
    fn go_on_text(
        &mut self,
        begun: usize,
        line_before: bool,
        escaped: bool,
        at: usize,
        byte: u8,
    ) -> Result<(), AllocError>
        requires { at + 1 < 2 ^ 64 }
        ensures mode { OnOk result (self.new.mode ≡ (in_text begun line_before escaped at byte).0) }
        ensures tokens { OnOk result (self.new.tokens.items ≡ self.old.tokens.items
            ++ (in_text begun line_before escaped at byte).1) }
    {
        if byte == b'"' && !escaped {
            self.push(TokenKind::Text, begun, at + 1, line_before)?;
            self.mode = Mode::Between { line_before: false };
        } else {
            self.mode = Mode::InText {
                at: begun,
                line_before,
                escaped: byte == b'\\',
            };
        }
        Ok(())
    }

    /// The byte at an offset, after those before it.
    #[inline(always)]
    pub(crate) fn step(&mut self, at: usize, byte: u8) -> Result<(), AllocError>
        requires { at + 1 < 2 ^ 64 }
        ensures mode { OnOk result (self.new.mode ≡ (step self.old.mode at byte).0) }
        ensures tokens { OnOk result (self.new.tokens.items ≡ self.old.tokens.items ++ (step self.old.mode at byte).1) }
    {
        match self.mode {
            Mode::Between { line_before } => self.open(line_before, at, byte)?,
            Mode::InWord {
                at: begun,
                line_before,
                slash: Some(slash),
            } if byte == b'*' => self.begin_comment(begun, line_before, slash)?,
            Mode::InWord {
                at: begun,
                line_before,
                ..
            } => self.go_on(begun, line_before, at, byte)?,
            Mode::InText {
                at: begun,
                line_before,
                escaped,
            } => self.go_on_text(begun, line_before, escaped, at, byte)?,
            Mode::InComment {
                at: begun,
                line_before,
                star,
            } => self.mode = after_comment_byte(begun, line_before, star, byte),
            Mode::InContinuation {
                at: begun,
                line_before,
            } => self.mode = after_continuation_byte(begun, line_before, byte),
            Mode::Stopped { .. } => {}
        }
        Ok(())
    }

    /// Reads bytes that begin at an offset, up to the first one with which a token ends, and that one too. How many they are:
    /// all of them, where no token ends with them.
    pub fn step_on(&mut self, at: usize, bytes: &[u8]) -> Result<usize, AllocError>
        requires { at + length bytes.now < 2 ^ 64 }
        ensures count { IfOk result (λ count. count ≤ length bytes.now) }
        ensures mode { IfOk result (λ count. self.new.mode ≡ mode_behind self.old.mode at (take count bytes.now)) }
        ensures tokens { IfOk result (λ count. self.new.tokens.items ≡ self.old.tokens.items
            ++ tokens_ended self.old.mode at (take count bytes.now)) }
        ensures none_before { IfOk result (λ count. (n : ℕ) → n < count → tokens_ended self.old.mode at (take n bytes.now) ≡ []) }
        ensures all { IfOk result (λ count. tokens_ended self.old.mode at (take count bytes.now) ≡ []
            → count ≡ length bytes.now) }
    {
        let ended = self.tokens().len();
        let mut done = 0;
        while done < bytes.len() {
            let (_, left) = bytes.split_at(done);
            done += idle_run(self.mode, left);
            if done < bytes.len() {
                self.step(at + done, bytes[done])?;
                done += 1;
                if self.tokens().len() != ended {
                    return Ok(done);
                }
            }
        }
        Ok(bytes.len())
    }

    /// Reads bytes as `step_to_mark` does, whatever stands open before them.
    fn open_to_mark(&mut self, at: usize, bytes: &[u8]) -> Result<usize, AllocError>
        requires { at + length bytes.now < 2 ^ 64 }
        ensures count { IfOk result (λ count. count ≤ length bytes.now) }
        ensures some { IfOk result (λ count. 0 < length bytes.now → 0 < count) }
        ensures mode { IfOk result (λ count. self.new.mode ≡ mode_behind self.old.mode at (take count bytes.now)) }
        ensures tokens { IfOk result (λ count. self.new.tokens.items ≡ self.old.tokens.items
            ++ tokens_ended self.old.mode at (take count bytes.now)) }
        ensures none_before { IfOk result (λ count. (n : ℕ) → n < count
            → has_mark (tokens_ended self.old.mode at (take n bytes.now)) ≡ false) }
    {
        let mut done = 0;
        while done < bytes.len() {
            let (_, left) = bytes.split_at(done);
            done += idle_run(self.mode, left);
            if done < bytes.len() {
                let byte = bytes[done];
                self.step(at + done, byte)?;
                done += 1;
                if is_mark_byte(byte) {
                    return Ok(done);
                }
            }
        }
        Ok(bytes.len())
    }

    /// Reads bytes as `step_to_mark` does, where nothing stands open before them, up to where something other does.
    fn between_to_mark(
        &mut self,
        line_before: bool,
        at: usize,
        bytes: &[u8],
    ) -> Result<usize, AllocError>
        requires between { self.old.mode ≡ Between line_before }
        requires fits { at + length bytes.now < 2 ^ 64 }
        ensures count { IfOk result (λ count. count ≤ length bytes.now) }
        ensures some { IfOk result (λ count. 0 < length bytes.now → 0 < count) }
        ensures mode { IfOk result (λ count. self.new.mode ≡ mode_behind self.old.mode at (take count bytes.now)) }
        ensures tokens { IfOk result (λ count. self.new.tokens.items ≡ self.old.tokens.items
            ++ tokens_ended self.old.mode at (take count bytes.now)) }
        ensures none_before { IfOk result (λ count. (n : ℕ) → n < count
            → has_mark (tokens_ended self.old.mode at (take n bytes.now)) ≡ false) }
    {
        let mut line_before = line_before;
        let mut done = 0;
        while done < bytes.len() {
            let (_, left) = bytes.split_at(done);
            let passed = self.pass_between(line_before, at + done, left)?;
            done += passed.count;
            if !passed.goes_on {
                return Ok(done);
            }
            line_before = passed.line_before;
        }
        self.mode = Mode::Between { line_before };
        Ok(done)
    }

    /// Reads bytes that begin at an offset, up to the first one with which a brace of a group or a semicolon ends, and that one
    /// too, or fewer. How many they are: at least one, where there are any.
    pub fn step_to_mark(&mut self, at: usize, bytes: &[u8]) -> Result<usize, AllocError>
        requires { at + length bytes.now < 2 ^ 64 }
        ensures count { IfOk result (λ count. count ≤ length bytes.now) }
        ensures some { IfOk result (λ count. 0 < length bytes.now → 0 < count) }
        ensures mode { IfOk result (λ count. self.new.mode ≡ mode_behind self.old.mode at (take count bytes.now)) }
        ensures tokens { IfOk result (λ count. self.new.tokens.items ≡ self.old.tokens.items
            ++ tokens_ended self.old.mode at (take count bytes.now)) }
        ensures none_before { IfOk result (λ count. (n : ℕ) → n < count
            → has_mark (tokens_ended self.old.mode at (take n bytes.now)) ≡ false) }
    {
        match self.mode {
            Mode::Between { line_before } => self.between_to_mark(line_before, at, bytes),
            _ => self.open_to_mark(at, bytes),
        }
    }

    /// What there is where the bytes end, at an offset.
    pub fn finish(mut self, at: usize) -> Result<KeptScan, AllocError>
        ensures tokens { IfOk result (λ found. found.tokens.items ≡ self.tokens.items ++ (closing self.mode at).0) }
        ensures stop { IfOk result (λ found. found.stop ≡ (closing self.mode at).1) }
    {
        let stop = match self.mode {
            Mode::Between { .. } => Stop::End,
            Mode::InWord {
                at: begun,
                line_before,
                ..
            } => {
                self.push(TokenKind::Word, begun, at, line_before)?;
                Stop::End
            }
            Mode::InText { at: begun, .. } => Stop::OpenText(begun),
            Mode::InComment { at: begun, .. } => Stop::OpenComment(begun),
            Mode::InContinuation { at: begun, .. } => Stop::OpenContinuation(begun),
            Mode::Stopped { at: begun } => Stop::BadByte(begun),
        };
        let Scanner { tokens, .. } = self;
        Ok(KeptScan { tokens, stop })
    }
}
