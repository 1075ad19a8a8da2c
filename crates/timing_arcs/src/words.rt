//! Texts cut into words.
ghost use Rattle.std.specs.Prelude.{◌≡◌, ◌==◌, ◌≤◌, length, drop, map, IfOk};
ghost use Rattle.liberty_groups.specs.Attributes.{words_between};
ghost use Rattle.timing_arcs.specs.RelatedPins.{is_space};
ghost use Rattle.timing_arcs.specs.Tables.{is_separator};
ghost use Rattle.timing_arcs.specs.Words.{word_length};

use std::alloc::{AllocError, Global};

/// Whether a byte separates the names of pins.
fn is_space(byte: u8) -> bool
    ensures { result ≡ is_space byte }
{
    byte == b' '
}

/// Whether a byte separates the entries of a table: a comma, a space, a tab, a carriage return or a line feed.
fn is_separator(byte: u8) -> bool
    ensures { result ≡ is_separator byte }
{
    byte == b',' || byte == b' ' || byte == b'\t' || byte == b'\r' || byte == b'\n'
}

/// The names of pins in a text, in order.
pub(crate) fn pin_names(alloc: Global, text: &[u8]) -> Result<Vec<&[u8]>, AllocError>
    ensures { IfOk result (λ words. map (λ word. word.now) words.items ≡ words_between is_space text.now) }
{
    text.split(|byte| is_space(*byte))
        .filter(|word| !word.is_empty())
        .collect(alloc)
}

/// How many bytes of a text stand before the first separator of entries.
pub(crate) fn entry_length(text: &[u8]) -> usize
    ensures value { result ≡ word_length is_separator text.now }
    ensures within { result ≤ length text.now }
{
    for (at, byte) in text.iter().enumerate() {
        if is_separator(*byte) {
            return at;
        }
    }
    text.len()
}

/// Whether no entry stands at the front of a text: it ends there, or begins with a separator.
pub(crate) fn is_end(text: &[u8]) -> bool
    ensures { result ≡ (word_length is_separator text.now == 0) }
{
    match text {
        [first, ..] => is_separator(*first),
        [] => true,
    }
}

/// A text without its first byte, if there is one.
pub(crate) fn behind_first(text: &[u8]) -> &[u8]
    ensures { result.now ≡ drop 1 text.now }
{
    match text {
        [_, behind @ ..] => behind,
        [] => text,
    }
}
