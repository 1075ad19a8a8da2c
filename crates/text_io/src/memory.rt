//! The desk over memory, which fails where it was told to.

ghost use Rattle.std.specs.Prelude.{◌≡◌, ◌<◌, ◌≤◌, ◌-◌, ◌||◌, List, ℕ, [], length, min, take, map, slice_get, string_bytes};
ghost use Rattle.std.specs.Prelude.{is_err, IsTrue, IsOk, IfOk, IfSome, OnOk, OnErr, Some, Contains};
ghost use Rattle.std.specs.Option.{option_copied, option_and_then};
ghost use Rattle.text_io.specs.declared.slots.Slot.TheVariants.{Input, Output};
ghost use Rattle.text_io.specs.Plan.{plan};
ghost use Rattle.text_io.specs.Desk.{DeskState, is_bound, opened, created, took, wrote, file_of, IsFileAt, HasCause};
ghost use Rattle.text_io.specs.NamedFiles.{folder_of, file_at};
ghost use Rattle.text_io.specs.Memory.{memory_of, fresh_memory, after_call, after_fault, next_fails, is_missing, is_full};
ghost use Rattle.text_io.specs.Memory.{room_left, CountsCall};

use crate::each_slot::{Inputs, Outputs};
use crate::named_files::{NamedFile, Place, file_of_word, read_on};
use crate::outside::{Desk, Failed};
use crate::piece::Piece;
use crate::sink::Sink;
use crate::slots::{InSlot, OutSlot};
use std::alloc::{AllocError, Global};
use thiserror::Error;

/// There was no memory.
#[derive(Clone, Copy, Debug, PartialEq, Eq, Error)]
#[error("out of memory")]
pub struct Memory;

impl From<AllocError> for Memory {
    fn from(_error: AllocError) -> Memory {
        Memory
    }
}

/// A desk over memory. It tells everything. The calls of the four methods, a write of no bytes aside, are counted from
/// 1, up to 2^64 - 1, and those whose numbers were asked for fail. Its methods take no memory.
#[derive(Drop)]
pub struct MemoryDesk {
    words: Vec<String>,
    folder: Vec<NamedFile>,
    failing: Vec<u64>,
    piece: Piece,
    calls: u64,
    faults: u64,
    places: Inputs<Option<Place>>,
    sinks: Outputs<Sink>,
    created: Outputs<bool>,
}

impl MemoryDesk {
    /// A desk at which no slot but the report and the faults is bound, with memory for `room` bytes in each output
    /// slot. Of two files of one name the first counts. `failing` has the numbers of the calls that fail.
    pub fn new(
        alloc: Global,
        words: Vec<String>,
        folder: Vec<NamedFile>,
        failing: Vec<u64>,
        room: usize,
    ) -> Result<MemoryDesk, Memory>
        ensures { IfOk result (λ desk. memory_of desk ≡ fresh_memory (map string_bytes words.items)
            (folder_of folder.items) failing.items room usize.MAX) }
    {
        MemoryDesk::in_pieces(alloc, words, folder, failing, room, usize::MAX)
    }

    /// As `new`, with reads and writes of at most `piece` bytes.
    pub fn in_pieces(
        alloc: Global,
        words: Vec<String>,
        folder: Vec<NamedFile>,
        failing: Vec<u64>,
        room: usize,
        piece: usize,
    ) -> Result<MemoryDesk, Memory>
        requires { 0 < piece }
        ensures { IfOk result (λ desk. memory_of desk ≡ fresh_memory (map string_bytes words.items)
            (folder_of folder.items) failing.items room piece) }
    {
        let sinks = Outputs::empty(alloc, room)?;
        Ok(MemoryDesk {
            words,
            folder,
            failing,
            piece: Piece { bytes: piece },
            calls: 0,
            faults: 0,
            places: Inputs {
                library: None,
                verilog: None,
                vital: None,
                stimulus: None,
            },
            sinks,
            created: Outputs {
                verilog_text: false,
                vital_text: false,
                report: false,
                faults: false,
            },
        })
    }

    /// The bytes that were written to a slot: those since its last binding.
    #[tactic(auto, unfolding(crate::specs::Memory::reads_memory))]
    pub fn written(&self, slot: OutSlot) -> &[u8]
        ensures { (memory_of self.now).desk.written slot ≡ Some result.now }
    {
        self.sinks.get(slot).bytes.as_slice()
    }

    /// How many calls failed, up to 2^64 - 1.
    pub fn faults(&self) -> u64
        ensures { result ≡ (memory_of self.now).faults }
    {
        self.faults
    }

    /// The place in the folder of the file that the word at this place names.
    fn file_of_word(&self, place: usize) -> Option<usize>
        ensures file { option_and_then (file_at (folder_of self.now.folder.items)) result ≡ option_and_then
            (file_of (folder_of self.now.folder.items)) (slice_get (map string_bytes self.now.words.items) place) }
        ensures within { IfSome result (λ file. file < length self.now.folder.items) }
    {
        file_of_word(self.words.as_slice(), self.folder.as_slice(), place)
    }

    /// Counts a call, and fails where its number is among those that fail.
    fn count_call(&mut self) -> Result<(), Failed>
        ensures fails { is_err result ≡ next_fails (memory_of self.old) }
        ensures counted { self.new ≡ after_call self.old (is_err result) }
        ensures cause { HasCause self.old.faults self.new.faults result }
    {
        self.calls = self.calls.saturating_add(1);
        if self.failing.contains(&self.calls) {
            return Err(self.fault());
        }
        Ok(())
    }

    /// Counts a fault.
    fn fault(&mut self) -> Failed
        ensures counted { self.new ≡ after_fault self.old }
        ensures later { self.old.faults ≤ self.new.faults }
    {
        self.faults = self.faults.saturating_add(1);
        Failed
    }
}

impl Desk for MemoryDesk {
    ghost state = { λ d. (memory_of d).desk };

    ghost faults = { λ d. (memory_of d).faults };

    #[tactic(auto, unfolding(crate::specs::Memory::reads_memory))]
    fn word(&self, place: usize) -> Option<&str> {
        self.words.get(place).map(|word| word.as_str())
    }

    #[tactic(auto, unfolding(crate::specs::Memory::reads_memory))]
    fn bind_in(&mut self, slot: InSlot, place: usize) -> Result<(), Failed>
        requires { Contains (plan (memory_of self.old).desk.words) (Input slot, place) }
        ensures ok { OnOk result ((bytes : List ℕ) × IsFileAt (memory_of self.old).desk place bytes
            × ((memory_of self.new).desk ≡ opened (memory_of self.old).desk slot bytes)) }
        ensures err { OnErr result ((memory_of self.new).desk ≡ (memory_of self.old).desk) }
        ensures cause { HasCause (memory_of self.old).faults (memory_of self.new).faults result }
        ensures fails { is_err result ≡ (next_fails (memory_of self.old) || is_missing (memory_of self.old) place) }
        ensures counts { CountsCall (memory_of self.old) (memory_of self.new) (is_err result) }
    {
        self.count_call()?;
        let Some(file) = self.file_of_word(place) else {
            return Err(self.fault());
        };
        self.places.set(slot, Some(Place { file, offset: 0 }));
        Ok(())
    }

    #[tactic(auto, unfolding(crate::specs::Memory::reads_memory))]
    fn read(&mut self, slot: InSlot, into: &mut [u8]) -> Result<usize, Failed>
        requires { IsTrue (is_bound (memory_of self.old).desk (Input slot)) }
        ensures at_most { IfOk result (λ count. count ≤ length into.new) }
        ensures front { IfOk result (λ count. IfSome ((memory_of self.old).desk.left slot)
            (λ left. (take count into.new ≡ take count left) × (count ≤ length left))) }
        ensures end { IfOk result (λ count. count ≡ 0 → 0 < length into.new
            → IfSome ((memory_of self.old).desk.left slot) (λ left. left ≡ [])) }
        ensures ok { IfOk result (λ count. (memory_of self.new).desk ≡ took (memory_of self.old).desk slot count) }
        ensures err { OnErr result ((memory_of self.new).desk ≡ (memory_of self.old).desk) }
        ensures cause { HasCause (memory_of self.old).faults (memory_of self.new).faults result }
        ensures fails { is_err result ≡ next_fails (memory_of self.old) }
        ensures counts { CountsCall (memory_of self.old) (memory_of self.new) (is_err result) }
        ensures count { IfOk result (λ count. IfSome ((memory_of self.old).desk.left slot)
            (λ left. count ≡ min (length left) (min (length into.new) (memory_of self.old).piece))) }
    {
        self.count_call()?;
        let Some(mut place) = *self.places.get(slot) else {
            unreachable!();
        };
        let most = into.len().min(self.piece.bytes);
        let count = read_on(self.folder.as_slice(), &mut place, &mut into[..most]);
        self.places.set(slot, Some(place));
        Ok(count)
    }

    #[tactic(auto, unfolding(crate::specs::Memory::reads_memory))]
    fn bind_out(&mut self, slot: OutSlot, place: usize) -> Result<(), Failed>
        requires { Contains (plan (memory_of self.old).desk.words) (Output slot, place) }
        ensures ok { OnOk result ((memory_of self.new).desk ≡ created (memory_of self.old).desk slot) }
        ensures err { OnErr result ((memory_of self.new).desk ≡ (memory_of self.old).desk) }
        ensures cause { HasCause (memory_of self.old).faults (memory_of self.new).faults result }
        ensures fails { is_err result ≡ next_fails (memory_of self.old) }
        ensures counts { CountsCall (memory_of self.old) (memory_of self.new) (is_err result) }
    {
        let _place = place;
        self.count_call()?;
        self.sinks.clear(slot);
        self.created.set(slot, true);
        Ok(())
    }

    #[tactic(auto, unfolding(crate::specs::Memory::reads_memory))]
    fn write(&mut self, slot: OutSlot, bytes: &[u8]) -> Result<usize, Failed>
        requires { IsTrue (is_bound (memory_of self.old).desk (Output slot)) }
        ensures at_most { IfOk result (λ count. count ≤ length bytes.now) }
        ensures some { IfOk result (λ count. 0 < length bytes.now → 0 < count) }
        ensures never { length bytes.now ≡ 0 → IsOk result }
        ensures ok { IfOk result (λ count. (memory_of self.new).desk ≡ wrote (memory_of self.old).desk slot
            (take count bytes.now)) }
        ensures err { OnErr result ((memory_of self.new).desk ≡ (memory_of self.old).desk) }
        ensures cause { HasCause (memory_of self.old).faults (memory_of self.new).faults result }
        ensures fails { 0 < length bytes.now
            → is_err result ≡ (next_fails (memory_of self.old) || is_full (memory_of self.old) slot) }
        ensures counts { 0 < length bytes.now → CountsCall (memory_of self.old) (memory_of self.new) (is_err result) }
        ensures uncounted { length bytes.now ≡ 0 → memory_of self.new ≡ memory_of self.old }
        ensures count { IfOk result (λ count. count ≡ min (min (length bytes.now) (memory_of self.old).piece)
            (room_left (memory_of self.old) slot)) }
    {
        if bytes.is_empty() {
            return Ok(0);
        }
        self.count_call()?;
        let most = bytes.len().min(self.piece.bytes);
        let count = self.sinks.append(slot, &bytes[..most]);
        if count == 0 {
            return Err(self.fault());
        }
        Ok(count)
    }
}
