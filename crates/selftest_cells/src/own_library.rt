//! A desk on which the library that a run makes for itself is read.
ghost use Rattle.std.specs.Prelude.{◌≡◌, ◌<◌, ◌≤◌, length, min, take};

use crate::library::{cell_text, front};
use std::alloc::{AllocError, Global};
use text_io::{Desk, Failed, InSlot, OutSlot};

/// The library of so many cells, to be read through a desk: its slot is bound from the start, and nothing else can be bound, read
/// or written. Of its text no more is held than that of one cell.
#[derive(Drop)]
pub struct OwnLibrary {
    alloc: Global,
    /// How many cells the library has.
    cells: u64,
    /// How many of them were made.
    made: u64,
    /// Whether the end was made.
    is_ended: bool,
    /// What was made last: the front, a cell or the end.
    piece: Vec<u8>,
    /// How many bytes of the piece were read.
    taken: usize,
    /// How many calls failed, at most 2^64 - 1.
    faults: u64,
    ghost within: { taken ≤ length piece.items },
}

impl OwnLibrary {
    ghost use Rattle.std.specs.Prelude.{◌-◌, [], drop, false, IfOk, OnOk};
    ghost use Rattle.text_io.specs.Desk.{Rose};
    ghost use Rattle.selftest_cells.specs.Library.{library_text};
    ghost use Rattle.selftest_cells.specs.Reading.{left_of, reads_library};

    /// The library of so many cells, of which nothing is read yet. An `Err` comes only where memory is wanting.
    pub fn new(alloc: Global, cells: u64) -> Result<OwnLibrary, AllocError>
        ensures state { IfOk result (λ own. ⟦<OwnLibrary as Desk>⟧.state own ≡ reads_library (library_text cells)) }
    {
        Ok(OwnLibrary {
            alloc,
            cells,
            made: 0,
            is_ended: false,
            piece: front(alloc)?,
            taken: 0,
            faults: 0,
        })
    }

    /// Counts a call that failed.
    fn fault(&mut self) -> Failed
        ensures left { left_of self.new ≡ left_of self.old }
        ensures count { Rose self.old.faults self.new.faults }
        ensures later { self.old.faults ≤ self.new.faults }
    {
        self.faults = self.faults.saturating_add(1);
        Failed
    }

    /// Makes what comes behind a piece that is read, where the end isn't made.
    fn make_next(&mut self) -> Result<(), AllocError>
        requires read { self.old.taken ≡ length self.old.piece.items }
        requires going { self.old.is_ended ≡ false }
        ensures left { left_of self.new ≡ left_of self.old }
        ensures piece { OnOk result ((self.new.taken ≡ 0) × (0 < length self.new.piece.items)) }
        ensures faults { self.new.faults ≡ self.old.faults }
    {
        if self.made < self.cells {
            self.piece = cell_text(self.alloc, self.made + 1)?;
            self.made += 1;
        } else {
            self.piece = Vec::from_slice(self.alloc, b"}\n")?;
            self.is_ended = true;
        }
        self.taken = 0;
        Ok(())
    }

    /// Sees to it that bytes of the piece are left, unless the library is read.
    fn refill(&mut self) -> Result<(), AllocError>
        ensures left { left_of self.new ≡ left_of self.old }
        ensures ready { OnOk result (self.new.taken ≡ length self.new.piece.items → left_of self.new ≡ []) }
        ensures faults { self.new.faults ≡ self.old.faults }
    {
        if self.is_ended || self.taken < self.piece.len() {
            return Ok(());
        }
        self.make_next()
    }

    /// Reads bytes of the piece into the front of `into`, and answers how many.
    fn read_piece(&mut self, into: &mut [u8]) -> usize
        ensures count { result ≡ min (length self.old.piece.items - self.old.taken) (length into.old) }
        ensures front { take result into.new ≡ take result (left_of self.old) }
        ensures within { result ≤ length (left_of self.old) }
        ensures left { left_of self.new ≡ drop result (left_of self.old) }
        ensures length { length into.new ≡ length into.old }
        ensures faults { self.new.faults ≡ self.old.faults }
    {
        let count = copy_front(&self.piece.as_slice()[self.taken..], into);
        self.taken += count;
        count
    }
}

/// Copies as many bytes as there is room for from the front of `rest` into the front of `into`, and answers how many.
fn copy_front(rest: &[u8], into: &mut [u8]) -> usize
    ensures count { result ≡ min (length rest.now) (length into.old) }
    ensures front { take result into.new ≡ take result rest.now }
    ensures length { length into.new ≡ length into.old }
{
    let count = rest.len().min(into.len());
    into[..count].copy_from_slice(&rest[..count]);
    count
}

impl Desk for OwnLibrary {
    ghost use Rattle.selftest_cells.specs.Reading.{left_of, reads_library};

    ghost state = { λ own. reads_library (left_of own) };

    ghost faults = { λ own. own.faults };

    #[tactic(auto, unfolding(crate::specs::Reading::reads_library))]
    fn word(&self, place: usize) -> Option<&str> {
        let _none = place;
        None
    }

    /// No words name files, so nothing can be bound.
    #[tactic(auto, unfolding(crate::specs::Reading::reads_library))]
    fn bind_in(&mut self, slot: InSlot, place: usize) -> Result<(), Failed> {
        let _none = (slot, place);
        Err(self.fault())
    }

    #[tactic(auto, unfolding(crate::specs::Reading::reads_library))]
    fn read(&mut self, slot: InSlot, into: &mut [u8]) -> Result<usize, Failed> {
        let _library = slot;
        match self.refill() {
            Ok(()) => Ok(self.read_piece(into)),
            Err(AllocError) => Err(self.fault()),
        }
    }

    /// No words name files, so nothing can be bound.
    #[tactic(auto, unfolding(crate::specs::Reading::reads_library))]
    fn bind_out(&mut self, slot: OutSlot, place: usize) -> Result<(), Failed> {
        let _none = (slot, place);
        Err(self.fault())
    }

    /// Nothing can be written but nothing.
    #[tactic(auto, unfolding(crate::specs::Reading::reads_library))]
    fn write(&mut self, slot: OutSlot, bytes: &[u8]) -> Result<usize, Failed> {
        let _none = slot;
        if bytes.is_empty() {
            return Ok(0);
        }
        Err(self.fault())
    }
}
