//! The desk over memory on which no call fails.

ghost use Rattle.std.specs.Prelude.{◌≡◌, map, string_bytes, IsTrue};
ghost use Rattle.text_io.specs.NamedFiles.{folder_of};
ghost use Rattle.text_io.specs.Found.{inputs_found};

use crate::each_slot::{Inputs, Outputs};
use crate::file_words::inputs_found;
use crate::named_files::{NamedFile, Place, file_of_word, read_on};
use crate::outside::{Desk, Failed};
use crate::slots::{InSlot, OutSlot};

/// A desk over memory on which no call fails: the files that its words name for reading are all there, and what is
/// written is not kept. It tells the folder and the bytes left, and does not tell the bytes written.
#[derive(Drop)]
pub struct SureDesk {
    words: Vec<String>,
    folder: Vec<NamedFile>,
    places: Inputs<Option<Place>>,
    created: Outputs<bool>,
    ghost all_there: { IsTrue (inputs_found (map string_bytes words.items) (folder_of folder.items)) },
}

impl SureDesk {
    ghost use Rattle.std.specs.Prelude.{◌<◌, length, slice_get, is_some, IfSome};
    ghost use Rattle.std.specs.Option.{option_and_then};
    ghost use Rattle.text_io.specs.Desk.{file_of};
    ghost use Rattle.text_io.specs.NamedFiles.{file_at};
    ghost use Rattle.text_io.specs.Sure.{sure_state, fresh_sure};

    /// A desk at which no slot but the report and the faults is bound; `None` exactly where a word that the plan has for
    /// reading is not in the folder. Of two files of one name the first counts. It takes no memory.
    #[tactic(auto, unfolding(crate::specs::Memory::reads_memory))]
    pub fn new(words: Vec<String>, folder: Vec<NamedFile>) -> Option<SureDesk>
        ensures found { is_some result ≡ inputs_found (map string_bytes words.items) (folder_of folder.items) }
        ensures state { IfSome result (λ desk. sure_state desk ≡ fresh_sure (map string_bytes words.items)
            (folder_of folder.items)) }
    {
        if !inputs_found(words.as_slice(), folder.as_slice()) {
            return None;
        }
        Some(SureDesk {
            words,
            folder,
            places: Inputs {
                library: None,
                verilog: None,
                vital: None,
                stimulus: None,
            },
            created: Outputs {
                verilog_text: false,
                vital_text: false,
                report: false,
                faults: false,
            },
        })
    }

    /// The place in the folder of the file that the word at this place names.
    fn file_of_word(&self, place: usize) -> Option<usize>
        ensures file { option_and_then (file_at (folder_of self.now.folder.items)) result ≡ option_and_then
            (file_of (folder_of self.now.folder.items)) (slice_get (map string_bytes self.now.words.items) place) }
        ensures within { IfSome result (λ file. file < length self.now.folder.items) }
    {
        file_of_word(self.words.as_slice(), self.folder.as_slice(), place)
    }
}

impl Desk for SureDesk {
    ghost use Rattle.std.specs.Prelude.{ℕ};
    ghost use Rattle.text_io.specs.Sure.{sure_state};

    ghost state = { sure_state };

    ghost faults = { λ _. 0 };

    #[tactic(auto, unfolding(crate::specs::Memory::reads_memory))]
    fn word(&self, place: usize) -> Option<&str> {
        self.words.get(place).map(|word| word.as_str())
    }

    #[tactic(auto, unfolding(crate::specs::Memory::reads_memory))]
    fn bind_in(&mut self, slot: InSlot, place: usize) -> Result<(), Failed> {
        let Some(file) = self.file_of_word(place) else {
            unreachable!();
        };
        self.places.set(slot, Some(Place { file, offset: 0 }));
        Ok(())
    }

    #[tactic(auto, unfolding(crate::specs::Memory::reads_memory))]
    fn read(&mut self, slot: InSlot, into: &mut [u8]) -> Result<usize, Failed> {
        let Some(mut place) = *self.places.get(slot) else {
            unreachable!();
        };
        let count = read_on(self.folder.as_slice(), &mut place, into);
        self.places.set(slot, Some(place));
        Ok(count)
    }

    #[tactic(auto, unfolding(crate::specs::Memory::reads_memory))]
    fn bind_out(&mut self, slot: OutSlot, _place: usize) -> Result<(), Failed> {
        self.created.set(slot, true);
        Ok(())
    }

    #[tactic(auto, unfolding(crate::specs::Memory::reads_memory))]
    fn write(&mut self, _slot: OutSlot, bytes: &[u8]) -> Result<usize, Failed> {
        Ok(bytes.len())
    }
}
