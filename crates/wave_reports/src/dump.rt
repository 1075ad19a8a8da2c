//! A value change dump, written.
ghost use Rattle.std.specs.Prelude.{◌≡◌, IsTrue};
ghost use Rattle.text_io.specs.declared.slots.OutSlot.TheVariants.{VerilogText};
ghost use Rattle.text_io.specs.declared.slots.Slot.TheVariants.{Output};
ghost use Rattle.text_io.specs.Desk.{is_bound, HasCause, WritesText};
ghost use Rattle.wave_reports.specs.Dump.{dump_text};

use crate::Waves;
use text_io::{Desk, Failed, OutSlot, write_pieces};

const HEAD: &[u8] = b"$version report_waves of lib2sim $end\n$timescale 1 ps $end\n";

const MIDDLE: &[u8] = b"$enddefinitions $end\n";

/// Appends what is drawn to the dump, which is bound. After `Failed`, which comes only where a write failed, a prefix of it was
/// appended. It takes no memory.
#[tactic(auto, unfolding(crate::specs::Dump::dump_text, crate::specs::Dump::dump_head, crate::specs::Dump::dump_middle))]
pub(crate) fn write_dump<D: Desk>(desk: &mut D, waves: &Waves) -> Result<(), Failed>
    requires { IsTrue (is_bound (D.state desk.old) (Output VerilogText)) }
    ensures text { WritesText (D.state desk.old) (D.state desk.new) VerilogText
        (dump_text waves.now.definitions.items waves.now.changes.items) result }
    ensures cause { HasCause (D.faults desk.old) (D.faults desk.new) result }
{
    write_pieces(
        desk,
        OutSlot::VerilogText,
        &[
            HEAD,
            waves.definitions.as_slice(),
            MIDDLE,
            waves.changes.as_slice(),
        ],
    )
}
