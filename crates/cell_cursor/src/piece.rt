//! Bytes that were read from a desk, and are taken out some at a time.

ghost use Rattle.std.specs.Prelude.{◌≡◌, ◌<◌, ◌≤◌, ℕ, List, [], length, drop, IsTrue, IfOk, IfSome, OnErr};
ghost use Rattle.text_io.specs.declared.slots.InSlot.TheVariants.{Library};
ghost use Rattle.text_io.specs.declared.slots.Slot.TheVariants.{Input};
ghost use Rattle.text_io.specs.Desk.{is_bound, HasCause};
ghost use Rattle.cell_cursor.specs.Taking.{Takes};

use std::marker::Model;
use text_io::{Desk, Failed, InSlot};

/// The most bytes that are read at once.
const MOST_AT_ONCE: usize = 16384;

/// The bytes of a read that are not taken out yet.
#[derive(Drop)]
pub(crate) struct Piece {
    /// Room for a read.
    bytes: [u8; MOST_AT_ONCE],
    next: usize,
    end: usize,
}

impl Model for Piece {
    ghost use Rattle.std.specs.Prelude.{ℕ, List};
    ghost use Rattle.cell_cursor.specs.Piece.{unread, IsInside};

    ghost Value = { List ℕ };

    ghost view = { unread };

    ghost invariant = { IsInside };
}

impl Piece {
    /// A piece of no bytes.
    pub(crate) fn new() -> Piece
        ensures { result ≡ [] }
    {
        Piece {
            bytes: [0; MOST_AT_ONCE],
            next: 0,
            end: 0,
        }
    }

    /// The bytes that are not taken out yet.
    pub(crate) fn unread(&self) -> &[u8]
        ensures { result.now ≡ self.now }
    {
        &self.bytes[self.next..self.end]
    }

    /// Takes out so many bytes.
    pub(crate) fn take_out(&mut self, count: usize)
        requires { count ≤ length self.old }
        ensures { self.new ≡ drop count self.old }
    {
        self.next += count;
    }

    /// Reads the next bytes of the library, as many as the room is for and at most `most`, and answers how many. What was
    /// not taken out is gone.
    pub(crate) fn read<D: Desk>(&mut self, desk: &mut D, most: usize) -> Result<usize, Failed>
        requires { IsTrue (is_bound (D.state desk.old) (Input Library)) }
        ensures most { length self.new ≤ most }
        ensures at_once { length self.new ≤ 16384 }
        ensures takes { Takes (D.state desk.old) (D.state desk.new) self.new }
        ensures count { IfOk result (λ count. count ≡ length self.new) }
        ensures end { IfOk result (λ count. count ≡ 0 → 0 < most → IfSome ((D.state desk.old).left Library) (λ left. left ≡ [])) }
        ensures err { OnErr result (self.new ≡ []) }
        ensures cause { HasCause (D.faults desk.old) (D.faults desk.new) result }
    {
        self.next = 0;
        self.end = 0;
        let want = MOST_AT_ONCE.min(most);
        let count = desk.read(InSlot::Library, &mut self.bytes[..want])?;
        self.end = count;
        Ok(count)
    }
}
