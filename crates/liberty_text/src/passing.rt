//! Bytes behind a token that are gone past at once: a gap, a text, a Word or a mark.

ghost use Rattle.std.specs.Prelude.{◌≡◌, ◌+◌, ◌<◌, ◌≤◌, ◌^◌, true, false, None, length, IfOk};
ghost use Rattle.liberty_text.specs.declared.scanner.Mode.TheVariants.{Between, InText, InWord};
ghost use Rattle.liberty_text.specs.Quiet.{IsQuiet, Passes};

use crate::class::{Class, class_of};
use crate::gaps::{blank_run, indentation};
use crate::idle::{is_mark_byte, text_run, word_run};
use crate::scanner::{Mode, Scanner};
use crate::token::TokenKind;
use std::alloc::AllocError;

/// Bytes that were gone past at once.
#[derive(Clone, Copy)]
pub(crate) struct Passed {
    pub(crate) count: usize,
    /// Whether nothing stands open behind them, and no brace of a group or semicolon has ended with them. Else the scanner has
    /// what stands open behind them.
    pub(crate) goes_on: bool,
    /// Where nothing stands open behind them, whether a line ends before the token to come.
    pub(crate) line_before: bool,
}

/// So many bytes, behind which nothing stands open.
#[inline(always)]
fn gone_past(count: usize, line_before: bool) -> Passed
    ensures count { result.count ≡ count }
    ensures goes_on { result.goes_on ≡ true }
    ensures line_before { result.line_before ≡ line_before }
{
    Passed {
        count,
        goes_on: true,
        line_before,
    }
}

impl Scanner {
    /// So many bytes, behind which this much stands open.
    #[inline(always)]
    fn behind(&mut self, count: usize, mode: Mode, may_be_mark: bool) -> Passed
        ensures count { result.count ≡ count }
        ensures tokens { self.new.tokens.items ≡ self.old.tokens.items }
        ensures mode { result.goes_on ≡ true → mode ≡ Between result.line_before }
        ensures mark { result.goes_on ≡ true → may_be_mark ≡ false }
        ensures ends { result.goes_on ≡ false → self.new.mode ≡ mode }
    {
        match mode {
            Mode::Between { line_before } if !may_be_mark => gone_past(count, line_before),
            _ => {
                self.set_mode(mode);
                Passed {
                    count,
                    goes_on: false,
                    line_before: false,
                }
            }
        }
    }

    /// Goes past the text that begins here, or past the front of it where a backslash stands in it or it has no end.
    #[inline(always)]
    fn pass_text(
        &mut self,
        line_before: bool,
        at: usize,
        bytes: &[u8],
    ) -> Result<Passed, AllocError>
        requires fits { at + length bytes.now < 2 ^ 64 }
        requires some { 0 < length bytes.now }
        requires begins { IsQuiet (Between line_before) at bytes.now 1 (InText at line_before false) }
        ensures { IfOk result (λ passed. Passes (Between line_before) at bytes.now self.old self.new passed) }
    {
        let (_, text) = bytes.split_at(1);
        let end = 1 + text_run(text);
        if end < bytes.len() && bytes[end] == b'"' {
            self.push(TokenKind::Text, at, at + end + 1, line_before)?;
            return Ok(gone_past(end + 1, false));
        }
        let mode = Mode::InText {
            at,
            line_before,
            escaped: false,
        };
        Ok(self.behind(end, mode, false))
    }

    /// Goes past the Word that begins here and the byte behind it, or past the front of it where a slash stands in it or the bytes
    /// end.
    #[inline(always)]
    fn pass_word(
        &mut self,
        line_before: bool,
        at: usize,
        bytes: &[u8],
    ) -> Result<Passed, AllocError>
        requires fits { at + length bytes.now < 2 ^ 64 }
        requires some { 0 < length bytes.now }
        requires begins { IsQuiet (Between line_before) at bytes.now 1 (InWord at line_before None) }
        ensures { IfOk result (λ passed. Passes (Between line_before) at bytes.now self.old self.new passed) }
    {
        let (_, word) = bytes.split_at(1);
        let end = 1 + word_run(word);
        if end < bytes.len() && bytes[end] != b'/' {
            let next = bytes[end];
            self.push(TokenKind::Word, at, at + end, line_before)?;
            let mode = self.opened(false, at + end, next)?;
            return Ok(self.behind(end + 1, mode, is_mark_byte(next)));
        }
        let mode = Mode::InWord {
            at,
            line_before,
            slash: None,
        };
        Ok(self.behind(end, mode, false))
    }

    /// Goes past the next byte alone.
    #[inline(always)]
    fn pass_byte(
        &mut self,
        line_before: bool,
        at: usize,
        bytes: &[u8],
    ) -> Result<Passed, AllocError>
        requires fits { at + length bytes.now < 2 ^ 64 }
        requires some { 0 < length bytes.now }
        ensures { IfOk result (λ passed. Passes (Between line_before) at bytes.now self.old self.new passed) }
    {
        let byte = bytes[0];
        let mode = self.opened(line_before, at, byte)?;
        Ok(self.behind(1, mode, is_mark_byte(byte)))
    }

    /// Goes past some bytes, before which nothing stands open: at least one.
    #[inline(always)]
    pub(crate) fn pass_between(
        &mut self,
        line_before: bool,
        at: usize,
        bytes: &[u8],
    ) -> Result<Passed, AllocError>
        requires fits { at + length bytes.now < 2 ^ 64 }
        requires some { 0 < length bytes.now }
        ensures { IfOk result (λ passed. Passes (Between line_before) at bytes.now self.old self.new passed) }
    {
        let byte = bytes[0];
        let (_, behind) = bytes.split_at(1);
        match class_of(byte) {
            Class::LineEnd => Ok(gone_past(1 + indentation(behind), true)),
            Class::Blank => Ok(gone_past(1 + blank_run(behind), line_before)),
            Class::Quote => self.pass_text(line_before, at, bytes),
            Class::WordByte if byte != b'/' => self.pass_word(line_before, at, bytes),
            Class::Backslash if bytes.len() > 1 && bytes[1] == b'\n' => {
                let (_, line) = bytes.split_at(2);
                Ok(gone_past(2 + indentation(line), line_before))
            }
            _ => self.pass_byte(line_before, at, bytes),
        }
    }
}
