//! Words that name files, as texts in memory.

ghost use Rattle.std.specs.Prelude.{◌≡◌, map, string_bytes};
ghost use Rattle.text_io.specs.Plan.{is_among, are_file_words, asked_files, planned_slots};
ghost use Rattle.text_io.specs.NamedFiles.{folder_of};
ghost use Rattle.text_io.specs.Found.{has_file, inputs_found};

use crate::file_commands::CommandFiles;
use crate::named_files::{NamedFile, file_of_word};
use crate::slots::Slot;

/// Whether the text is among these.
fn is_among(word: &str, words: &[String]) -> bool
    ensures { result ≡ is_among word.now (map string_bytes words.now) }
{
    for other in words {
        if word == other.as_str() {
            return true;
        }
    }
    false
}

/// Whether these words can name files side by side: none is empty, and no two are equal as texts.
fn are_file_words(words: &[String]) -> bool
    ensures { result ≡ are_file_words (map string_bytes words.now) }
{
    let mut rest = words;
    while let Some((word, later)) = rest.split_first() {
        if word.is_empty() || is_among(word.as_str(), later) {
            return false;
        }
        rest = later;
    }
    true
}

/// The slots that these words bind, in the order of the words after the first.
fn planned_slots(words: &[String]) -> &'static [Slot]
    ensures { result.now ≡ planned_slots (asked_files (map string_bytes words.now)) }
{
    let Some((first, files)) = words.split_first() else {
        return &[];
    };
    match CommandFiles::of_word(first.as_str()) {
        Some(named) if files.len() == named.slots.len() && are_file_words(files) => named.slots,
        _ => &[],
    }
}

/// Whether every file that the plan of these words has for reading is among the files.
pub(crate) fn inputs_found(words: &[String], files: &[NamedFile]) -> bool
    ensures { result ≡ inputs_found (map string_bytes words.now) (folder_of files.now) }
{
    let slots = planned_slots(words);
    for (index, slot) in slots.iter().enumerate() {
        if !has_file(words, files, *slot, index + 1) {
            return false;
        }
    }
    true
}

/// Whether the word at this place names a file, where the slot is for reading.
fn has_file(words: &[String], files: &[NamedFile], slot: Slot, place: usize) -> bool
    ensures { result ≡ has_file (map string_bytes words.now) (folder_of files.now) slot place }
{
    match slot {
        Slot::Input(_) => file_of_word(words, files, place).is_some(),
        Slot::Output(_) => true,
    }
}
