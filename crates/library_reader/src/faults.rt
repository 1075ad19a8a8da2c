//! Why a library is refused.
ghost use Rattle.text_io.specs.declared.slots.OutSlot.TheVariants.{Faults};
ghost use Rattle.text_io.specs.Desk.{HasCause, WritesText};
ghost use Rattle.library_reader.specs.FaultLines.{library_fault_line, library_too_long_line};

use crate::fault_words::fault_text;
use liberty_groups::LibraryFault;
use text_io::{Bytes, Decimal, Desk, Failed, OutSlot, parts, write_part, write_whole};

/// Tells a text that is no library text, with the offset of its first fault, from 0. After `Failed`, which comes only
/// where a write failed, a prefix of the line was appended.
#[tactic(auto, unfolding(crate::specs::FaultLines::library_fault_line))]
pub fn write_library_fault<D: Desk>(desk: &mut D, fault: &LibraryFault) -> Result<(), Failed>
    ensures text { WritesText (D.state desk.old) (D.state desk.new) Faults (library_fault_line fault.now) result }
    ensures cause { HasCause (D.faults desk.old) (D.faults desk.new) result }
{
    let found = parts!(Bytes(b": "), Bytes(fault_text(fault)), Bytes(b"\n"));
    let line = parts!(
        Bytes(b"library refused at "),
        Decimal(fault.at() as u128),
        found
    );
    write_part(desk, OutSlot::Faults, &line)
}

/// Tells a library with too many bytes. After `Failed`, which comes only where a write failed, a prefix of the line was
/// appended.
#[tactic(auto, unfolding(crate::specs::FaultLines::library_too_long_line))]
pub fn write_library_too_long<D: Desk>(desk: &mut D) -> Result<(), Failed>
    ensures text { WritesText (D.state desk.old) (D.state desk.new) Faults library_too_long_line result }
    ensures cause { HasCause (D.faults desk.old) (D.faults desk.new) result }
{
    write_whole(desk, OutSlot::Faults, b"library too long\n")
}
