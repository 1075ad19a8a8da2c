//! The tokens of a function text.
ghost use Rattle.std.specs.Prelude.{◌≡◌, ◌≤◌, ◌<◌, ◌++◌, IfOk, OnOk, All, length};
ghost use Rattle.bool_functions.specs.Token.{is_blank, is_word_byte, spans, run_before, LieIn};

use std::alloc::{AllocError, Global};

/// A token, by the offset of its first byte and the offset after its last.
#[derive(Clone, Copy)]
pub struct Span {
    pub start: usize,
    pub end: usize,
}

/// The tokens of a text: each longest run of letters, digits and `_`, and each other byte that is no blank.
pub(crate) fn spans(alloc: Global, text: &[u8]) -> Result<Vec<Span>, AllocError>
    ensures { IfOk result (λ v. v.items ≡ spans text.now) }
{
    let mut found = Vec::new(alloc);
    let mut begun = None;
    for (at, byte) in text.iter().enumerate() {
        if is_word_byte(*byte) {
            begun = Some(begun.unwrap_or(at));
        } else {
            push_run(&mut found, begun, at)?;
            begun = None;
            if !is_blank(*byte) {
                found.push(Span {
                    start: at,
                    end: at + 1,
                })?;
            }
        }
    }
    push_run(&mut found, begun, text.len())?;
    Ok(found)
}

/// Adds the run that begins at `begun`, if there is one, and ends before `end`.
fn push_run(found: &mut Vec<Span>, begun: Option<usize>, end: usize) -> Result<(), AllocError>
    ensures { OnOk result (found.new.items ≡ found.old.items ++ run_before begun end) }
{
    if let Some(start) = begun {
        found.push(Span { start, end })?;
    }
    Ok(())
}

/// Whether a byte is a space, a tab or a line feed.
pub(crate) fn is_blank(byte: u8) -> bool
    ensures { result ≡ is_blank byte }
{
    byte == b' ' || byte == b'\t' || byte == b'\n'
}

/// Whether a byte is a letter, a digit or `_`.
pub(crate) fn is_word_byte(byte: u8) -> bool
    ensures { result ≡ is_word_byte byte }
{
    byte.is_ascii_alphanumeric() || byte == b'_'
}
