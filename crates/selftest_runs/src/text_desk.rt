//! A desk that keeps the text of one slot in memory.

ghost use Rattle.std.specs.Prelude.{◌≡◌, [], Some, IsTrue};
ghost use Rattle.text_io.specs.declared.slots.Slot.TheVariants.{Output};
ghost use Rattle.text_io.specs.Slots.{same_out};
ghost use Rattle.text_io.specs.Desk.{is_bound};
ghost use Rattle.selftest_runs.specs.KeptTexts.{keeps_text, state_of};

use std::alloc::{AllocError, Global};
use text_io::{Desk, Failed, InSlot, OutSlot};

/// A desk at which one output slot is bound. What is written to it is kept, in memory that grows with it, and what is written to
/// another slot is not. It has no words and no files. A call fails only where memory is wanting.
#[derive(Drop)]
pub(crate) struct TextDesk {
    pub(crate) slot: OutSlot,
    pub(crate) text: Vec<u8>,
    pub(crate) faults: u64,
}

/// A text could not be kept, since memory was wanting: the only reason for which a call on a `TextDesk` fails.
#[derive(Clone, Copy)]
pub(crate) struct NotKept;

impl From<Failed> for NotKept {
    fn from(_: Failed) -> NotKept {
        NotKept
    }
}

impl From<NotKept> for AllocError {
    fn from(_: NotKept) -> AllocError {
        AllocError
    }
}

impl TextDesk {
    /// A desk at which this slot is bound, and empty.
    #[tactic(auto, unfolding(crate::specs::KeptTexts::keeps_text))]
    pub(crate) fn new(alloc: Global, slot: OutSlot) -> TextDesk
        ensures state { state_of result ≡ keeps_text slot [] }
        ensures bound { IsTrue (is_bound (state_of result) (Output slot)) }
    {
        TextDesk {
            slot,
            text: Vec::new(alloc),
            faults: 0,
        }
    }

    /// Whether what is written to this slot is kept.
    fn keeps(&self, slot: OutSlot) -> bool
        ensures { result ≡ same_out self.now.slot slot }
    {
        self.slot == slot
    }
}

impl Desk for TextDesk {
    ghost state = { state_of };

    ghost faults = { λ d. d.faults };

    #[tactic(auto, unfolding(crate::specs::KeptTexts::keeps_text))]
    fn word(&self, _place: usize) -> Option<&str> {
        None
    }

    #[tactic(auto, unfolding(crate::specs::KeptTexts::keeps_text))]
    fn bind_in(&mut self, _slot: InSlot, _place: usize) -> Result<(), Failed> {
        unreachable!()
    }

    #[tactic(auto, unfolding(crate::specs::KeptTexts::keeps_text))]
    fn read(&mut self, _slot: InSlot, _into: &mut [u8]) -> Result<usize, Failed> {
        unreachable!()
    }

    #[tactic(auto, unfolding(crate::specs::KeptTexts::keeps_text))]
    fn bind_out(&mut self, _slot: OutSlot, _place: usize) -> Result<(), Failed> {
        unreachable!()
    }

    #[tactic(auto, unfolding(crate::specs::KeptTexts::keeps_text))]
    fn write(&mut self, slot: OutSlot, bytes: &[u8]) -> Result<usize, Failed> {
        if bytes.is_empty() {
            return Ok(0);
        }
        if !self.keeps(slot) {
            return Ok(bytes.len());
        }
        match self.text.extend_from_slice(bytes) {
            Ok(()) => Ok(bytes.len()),
            Err(_) => {
                self.faults = self.faults.saturating_add(1);
                Err(Failed)
            }
        }
    }
}
