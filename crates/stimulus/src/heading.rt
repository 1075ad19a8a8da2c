//! The line with which a section begins.
ghost use Rattle.text_io.specs.declared.slots.OutSlot.TheVariants.{Report};
ghost use Rattle.text_io.specs.Desk.{HasCause, WritesText};
ghost use Rattle.stimulus.specs.TraceText.{heading_text};

use text_io::{Desk, Failed, OutSlot, write_pieces};

/// Appends to the report the line with which the section of a cell begins: `cell` and its name. After `Failed`, which comes
/// only where a write failed, a prefix of the line was appended. It takes no memory.
#[tactic(auto, unfolding(crate::specs::TraceText::heading_text))]
pub fn write_heading<D: Desk>(desk: &mut D, name: &[u8]) -> Result<(), Failed>
    ensures text { WritesText (D.state desk.old) (D.state desk.new) Report (heading_text name.now) result }
    ensures cause { HasCause (D.faults desk.old) (D.faults desk.new) result }
{
    write_pieces(desk, OutSlot::Report, &[b"cell ", name, b"\n"])
}
