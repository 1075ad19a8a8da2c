//! Short texts gathered before they are handed to a desk.

ghost use Rattle.std.specs.Prelude.{◌≡◌, ◌+◌, ◌≤◌, [], ◌++◌, length, take, IsTrue, IfOk, OnErr};
ghost use Rattle.std.specs.List.{flat_map};
ghost use Rattle.text_io.specs.declared.slots.Slot.TheVariants.{Output};
ghost use Rattle.text_io.specs.Desk.{is_bound, HasCause, WritesText};
ghost use Rattle.text_io.specs.Line.{PutsText, Gathers, StopsWithin};

use crate::lists::{Each, OwnText};
use crate::outside::{Desk, Failed};
use crate::parts::Part;
use crate::slots::OutSlot;
use crate::writing::write_whole;
use std::marker::Model;

/// How many bytes are gathered before they are written.
const ROOM: usize = 4096;

/// Bytes that wait to be written, so that small pieces do not each cost a call. Contracts see the bytes.
#[derive(Drop)]
pub struct Line {
    bytes: [u8; ROOM],
    held: usize,
}

impl Model for Line {
    ghost use Rattle.std.specs.Prelude.{ℕ, ◌≤◌, List, take};

    ghost Value = { List ℕ };

    ghost view = { λ line. take line.held line.bytes };

    ghost invariant = { λ line. line.held ≤ 4096 };
}

impl Line {
    /// A line at which no bytes wait.
    pub fn new() -> Line
        ensures { result ≡ [] }
    {
        Line {
            bytes: [0; ROOM],
            held: 0,
        }
    }

    /// Puts a piece behind the bytes that wait; some of them are written to the slot, which is bound, where there is no
    /// room. After `Failed` a prefix of all was written. It takes no memory.
    pub fn put<D: Desk>(&mut self, desk: &mut D, slot: OutSlot, piece: &[u8]) -> Result<(), Failed>
        requires { IsTrue (is_bound (D.state desk.old) (Output slot)) }
        ensures text { PutsText (D.state desk.old) (D.state desk.new) slot self.old piece.now self.new result }
        ensures cause { HasCause (D.faults desk.old) (D.faults desk.new) result }
    {
        self.held = gather(desk, slot, &mut self.bytes, self.held, piece)?;
        Ok(())
    }

    /// Puts the pieces one after another, as `put` does with their joined bytes.
    #[inline(always)]
    pub fn put_pieces<D: Desk>(
        &mut self,
        desk: &mut D,
        slot: OutSlot,
        pieces: &[&[u8]],
    ) -> Result<(), Failed>
        requires { IsTrue (is_bound (D.state desk.old) (Output slot)) }
        ensures text { PutsText (D.state desk.old) (D.state desk.new) slot self.old (flat_map (λ piece. piece.now) pieces.now)
            self.new result }
        ensures cause { HasCause (D.faults desk.old) (D.faults desk.new) result }
    {
        Each(OwnText, pieces).put(self, desk, slot)
    }

    /// Writes the bytes that wait. After `Failed` a prefix of them was written. It takes no memory.
    pub fn flush<D: Desk>(self, desk: &mut D, slot: OutSlot) -> Result<(), Failed>
        requires { IsTrue (is_bound (D.state desk.old) (Output slot)) }
        ensures text { WritesText (D.state desk.old) (D.state desk.new) slot self result }
        ensures cause { HasCause (D.faults desk.old) (D.faults desk.new) result }
    {
        let Line { bytes, held } = self;
        write_whole(desk, slot, &bytes[..held])
    }
}

/// Puts a piece behind the first `held` bytes, and answers how many are held then. Where there is no room they are
/// written first, and so is a piece that is too long itself.
fn gather<D: Desk>(
    desk: &mut D,
    slot: OutSlot,
    bytes: &mut [u8],
    held: usize,
    piece: &[u8],
) -> Result<usize, Failed>
    requires bound { IsTrue (is_bound (D.state desk.old) (Output slot)) }
    requires within { held ≤ length bytes.old }
    ensures ok { IfOk result (λ now. Gathers (D.state desk.old) (D.state desk.new) slot (take held bytes.old) piece.now
        (take now bytes.new)) }
    ensures fits { IfOk result (λ now. now ≤ length bytes.new) }
    ensures err { OnErr result (StopsWithin (D.state desk.old) (D.state desk.new) slot (take held bytes.old ++ piece.now)) }
    ensures cause { HasCause (D.faults desk.old) (D.faults desk.new) result }
{
    if piece.len() <= bytes.len() - held {
        return Ok(put_behind(bytes, held, piece));
    }
    write_whole(desk, slot, &bytes[..held])?;
    if piece.len() > bytes.len() {
        write_whole(desk, slot, piece)?;
        return Ok(0);
    }
    Ok(put_behind(bytes, 0, piece))
}

/// Copies the piece behind the first `held` bytes, and answers where it ends.
fn put_behind(bytes: &mut [u8], held: usize, piece: &[u8]) -> usize
    requires { held + length piece.now ≤ length bytes.old }
    ensures end { result ≡ held + length piece.now }
    ensures bytes { take result bytes.new ≡ take held bytes.old ++ piece.now }
{
    let end = held + piece.len();
    bytes[held..end].copy_from_slice(piece);
    end
}
