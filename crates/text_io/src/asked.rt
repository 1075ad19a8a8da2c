//! The command of files that the words of a desk ask for.

ghost use Rattle.std.specs.Prelude.{◌≡◌, ◌<◌, ◌≤◌, drop, length};
ghost use Rattle.text_io.specs.Plan.{is_among, is_file_word, are_so_many, asked_files};

use crate::file_commands::{CommandFiles, FileCommand};
use crate::outside::Desk;
use crate::slots::Slot;

/// The command of files that the words ask for: the first is its word, and exactly as many follow as it has files, none
/// empty and no two equal. It reads the words alone, and never fails.
pub fn asked_files<D: Desk>(desk: &D) -> Option<FileCommand>
    ensures { result ≡ asked_files (D.state desk.now).words }
{
    let first = desk.word(0)?;
    let named = CommandFiles::of_word(first)?;
    if are_named(desk, named.slots) {
        Some(named.command)
    } else {
        None
    }
}

/// Whether as many words follow the first as there are slots, none empty and no two equal.
fn are_named<D: Desk>(desk: &D, slots: &[Slot]) -> bool
    requires { 0 < length (D.state desk.now).words }
    ensures { result ≡ are_so_many (drop 1 (D.state desk.now).words) (length slots.now) }
{
    let end = slots.len() + 1;
    if desk.word(end).is_some() {
        return false;
    }
    for place in 1..end {
        let Some(word) = desk.word(place) else {
            return false;
        };
        if !is_file_word(desk, word, place + 1, end) {
            return false;
        }
    }
    true
}

/// Whether the text can name a file beside those of the words from this place on, which end before another place.
fn is_file_word<D: Desk>(desk: &D, text: &str, from: usize, end: usize) -> bool
    requires { length (D.state desk.now).words ≤ end }
    ensures { result ≡ is_file_word text.now (drop from (D.state desk.now).words) }
{
    !text.is_empty() && !is_among(desk, text, from, end)
}

/// Whether the text is among the words from this place on, which end before another place.
fn is_among<D: Desk>(desk: &D, text: &str, from: usize, end: usize) -> bool
    requires { length (D.state desk.now).words ≤ end }
    ensures { result ≡ is_among text.now (drop from (D.state desk.now).words) }
{
    for place in from..end {
        let Some(word) = desk.word(place) else {
            return false;
        };
        if text == word {
            return true;
        }
    }
    false
}
