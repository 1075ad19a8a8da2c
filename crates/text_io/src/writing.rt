//! Whole texts handed to a desk.

ghost use Rattle.std.specs.Prelude.{◌≡◌, IsTrue};
ghost use Rattle.std.specs.List.{flat_map};
ghost use Rattle.text_io.specs.declared.slots.Slot.TheVariants.{Output};
ghost use Rattle.text_io.specs.Desk.{is_bound, HasCause, WritesText};

use crate::lists::{Each, OwnText};
use crate::outside::{Desk, Failed};
use crate::slots::OutSlot;
use crate::whole::write_part;

/// Appends all of `bytes` to a slot that is bound. After `Failed` a prefix of them was appended. It takes no memory.
pub fn write_whole<D: Desk>(desk: &mut D, slot: OutSlot, bytes: &[u8]) -> Result<(), Failed>
    requires { IsTrue (is_bound (D.state desk.old) (Output slot)) }
    ensures text { WritesText (D.state desk.old) (D.state desk.new) slot bytes.now result }
    ensures cause { HasCause (D.faults desk.old) (D.faults desk.new) result }
{
    let mut done = 0;
    while done < bytes.len() {
        done += desk.write(slot, &bytes[done..])?;
    }
    Ok(())
}

/// Appends the pieces one after another, as `write_whole` does with their joined bytes. Small pieces are gathered first.
/// It takes no memory.
pub fn write_pieces<D: Desk>(desk: &mut D, slot: OutSlot, pieces: &[&[u8]]) -> Result<(), Failed>
    requires { IsTrue (is_bound (D.state desk.old) (Output slot)) }
    ensures text { WritesText (D.state desk.old) (D.state desk.new) slot (flat_map (λ piece. piece.now) pieces.now) result }
    ensures cause { HasCause (D.faults desk.old) (D.faults desk.new) result }
{
    write_part(desk, slot, &Each(OwnText, pieces))
}
