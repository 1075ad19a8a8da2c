//! The text of a table, cut into rows, parts and words.
ghost use Rattle.std.specs.Prelude.{◌≡◌, ◌==◌, map, IfOk};
ghost use Rattle.std.specs.List.{slice_split, list_all};
ghost use Rattle.statetables.specs.Text.{is_blank as is_blank_of, without_end_comma as without_end_comma_of, words_of};

use std::alloc::{AllocError, Global};

/// Whether a byte is a space or a tab.
fn is_blank(byte: u8) -> bool
    ensures { result ≡ is_blank_of byte }
{
    byte == b' ' || byte == b'\t'
}

/// Whether all bytes are spaces and tabs.
fn is_all_blank(text: &[u8]) -> bool
    ensures { result ≡ list_all is_blank_of text.now }
{
    text.iter().all(|byte| is_blank(*byte))
}

/// The text ahead of a comma at its end, or the whole text where none is there.
pub fn without_end_comma(text: &[u8]) -> &[u8]
    ensures { result.now ≡ without_end_comma_of text.now }
{
    for at in 0..text.len() {
        if text[at] == b',' && is_all_blank(&text[at + 1..]) {
            return &text[..at];
        }
    }
    text
}

/// The parts of a text between separators, in order.
pub fn parts(alloc: Global, text: &[u8], separator: u8) -> Result<Vec<&[u8]>, AllocError>
    ensures { IfOk result (λ parts. map (λ part. part.now) parts.items ≡ slice_split (λ byte. byte == separator) text.now) }
{
    text.split(|byte| *byte == separator).collect(alloc)
}

/// The words of a text, separated by blanks, in order.
pub fn words(alloc: Global, text: &[u8]) -> Result<Vec<&[u8]>, AllocError>
    ensures { IfOk result (λ words. map (λ word. word.now) words.items ≡ words_of text.now) }
{
    text.split(|byte| is_blank(*byte))
        .filter(|word| !word.is_empty())
        .collect(alloc)
}
