//! What a line of a report says.
ghost use Rattle.std.specs.Prelude.{◌≡◌, ◌==◌};
ghost use Rattle.std.specs.List.{list_all, list_any};
ghost use Rattle.std.specs.Option.{option_map, option_copied};
ghost use Rattle.wave_reports.specs.Lines as spec;

use crate::traces::{Trace, trace_of};
use lexer::is_number;

/// What a line of a report says.
#[derive(Clone, Copy)]
pub(crate) enum Said<'a> {
    /// Nothing of a wave.
    Nothing,
    /// The section of the cell of this name begins.
    Cell(&'a [u8]),
    /// What a line of a trace says.
    Trace(Trace<'a>),
    /// Nothing that can be read.
    Unread,
}

/// A line of a report.
#[derive(Clone, Copy)]
pub(crate) struct ReportLine<'a> {
    /// Its number, counted from 1.
    pub number: usize,
    /// The line before it, empty where it is the first one.
    pub previous: &'a [u8],
    /// Its bytes, without the line feed.
    pub bytes: &'a [u8],
}

/// Whether all bytes are printable ASCII.
fn is_plain(line: &[u8]) -> bool
    ensures { result ≡ list_all spec.is_plain line.now }
{
    line.iter()
        .all(|byte| byte.is_ascii_graphic() || *byte == b' ')
}

/// What stands behind these bytes, where a line begins with them.
fn behind<'a>(line: &'a [u8], front: &[u8]) -> Option<&'a [u8]>
    ensures { option_copied result ≡ spec.behind front.now line.now }
{
    let end = front.len();
    if end <= line.len() && &line[..end] == front {
        Some(&line[end..])
    } else {
        None
    }
}

/// Whether a text is one name, which is not empty.
fn is_name(text: &[u8]) -> bool
    ensures { result ≡ spec.is_name text.now }
{
    if text.is_empty() {
        return false;
    }
    let spaced = has_space(text);
    !spaced
}

/// Whether a space stands in a text.
fn has_space(text: &[u8]) -> bool
    ensures { result ≡ list_any (λ b. b == 32) text.now }
{
    text.iter().any(|byte| *byte == b' ')
}

/// What a line says behind whose word this stands, if it has the word.
fn begin_said(name: Option<&[u8]>) -> Option<Said<'_>>
    ensures { option_map spec.seen result ≡ spec.begin_said (option_copied name.entry) }
{
    match name {
        Some(name) if is_name(name) => Some(Said::Cell(name)),
        Some(_) => Some(Said::Unread),
        None => None,
    }
}

/// What a line says behind whose words on a difference this stands, if it has these.
fn end_said(number: Option<&[u8]>) -> Said<'static>
    ensures { spec.seen result ≡ spec.end_said (option_copied number.entry) }
{
    match number {
        Some(number) if is_number(number) => Said::Nothing,
        _ => Said::Unread,
    }
}

/// What a line says that is none of a trace.
fn plain_said(line: &[u8]) -> Said<'_>
    ensures { spec.seen result ≡ spec.plain_said line.now }
{
    if line == b"equal".as_slice() {
        return Said::Nothing;
    }
    match begin_said(behind(line, b"cell ")) {
        Some(said) => said,
        None => end_said(behind(line, b"differs at change ")),
    }
}

/// What a line says.
pub(crate) fn said_of(line: &[u8]) -> Said<'_>
    ensures { spec.seen result ≡ spec.said_of line.now }
{
    if line.is_empty() {
        return Said::Nothing;
    }
    if !is_plain(line) {
        return Said::Unread;
    }
    match trace_of(line) {
        Some(trace) => Said::Trace(trace),
        None => plain_said(line),
    }
}
