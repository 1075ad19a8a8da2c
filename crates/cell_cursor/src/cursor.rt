//! A library that is read from a desk.

ghost use Rattle.std.specs.Prelude.{◌<◌, ◌≤◌, ◌+◌, ◌^◌, length};

use crate::item::LibraryItem;
use crate::part::{Part, Place};
use crate::piece::Piece;
use liberty_groups::LibraryFault;
use std::alloc::Global;
use text_io::Stop;

/// What is answered from now on.
#[derive(Clone, Copy)]
pub(crate) enum Answer {
    /// More bytes than the limit.
    Over,
    /// The end of the library.
    End,
    /// A fault of the library whatever follows the bytes that were read.
    Refused(LibraryFault),
    /// The end of the library, which has this fault.
    Fault(LibraryFault),
    /// A read failed, or there was no memory.
    Stopped(Stop),
}

/// A library that is read from a desk, one item after another. It holds a read, the bytes and tokens of the statement that
/// has not ended, and the items of those that ended before it.
#[derive(Drop)]
pub struct CellCursor {
    pub(crate) alloc: Global,
    /// How many bytes a library may have.
    pub(crate) limit: usize,
    /// What was read and is not scanned yet.
    pub(crate) piece: Piece,
    /// What is scanned and not taken yet.
    pub(crate) part: Part,
    pub(crate) place: Place,
    /// The items that were taken and not given yet, the last one first.
    pub(crate) waiting: Vec<LibraryItem>,
    /// What is answered where no item waits.
    pub(crate) answer: Option<Answer>,
    ghost fits: { limit < 2 ^ 64 },
    ghost at_once: { length piece ≤ 16384 },
    ghost within: { part.before + (length part.bytes + length piece) ≤ limit },
}
