//! A text that is written whole.
ghost use Rattle.std.specs.Prelude.{IsTrue};
ghost use Rattle.text_io.specs.declared.slots.Slot.TheVariants.{Output};
ghost use Rattle.text_io.specs.Desk.{is_bound, HasCause, WritesText};

use crate::parts::{Part, Put};
use crate::{Desk, Line, OutSlot};

/// Appends the text of a part to the slot, which is bound. After `Failed`, which comes only where a write failed, a prefix of it
/// was appended. It takes no memory.
pub fn write_part<D: Desk, P: Part>(desk: &mut D, slot: OutSlot, part: &P) -> Put
    requires { IsTrue (is_bound (D.state desk.old) (Output slot)) }
    ensures text { WritesText (D.state desk.old) (D.state desk.new) slot (P.text part.now) result }
    ensures cause { HasCause (D.faults desk.old) (D.faults desk.new) result }
{
    let mut line = Line::new();
    part.put(&mut line, desk, slot)?;
    line.flush(desk, slot)
}
