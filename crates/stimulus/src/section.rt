//! A whole section: its first line, and the lines of a trace.
ghost use Rattle.std.specs.Prelude.{◌≡◌, [], ◌++◌, length};
ghost use Rattle.cell_machine.specs.History.{IsProperFrom};
ghost use Rattle.stimulus.specs.DriveLines.{lines_along};
ghost use Rattle.text_io.specs.Desk.{StopsWithCause};
ghost use Rattle.stimulus.specs.TraceText.{heading_text, trace_text};
ghost use Rattle.stimulus.specs.Writes.{WritesTrace};

use crate::heading::write_heading;
use crate::printing::write_trace;
use crate::{Ports, TraceSim};
use cell_machine::Change;
use std::alloc::Global;
use text_io::{Desk, Stop};

/// Appends to the report the section of a cell with this name that one simulator runs: the line `cell` and the name, and then
/// the lines of the simulator's trace on the changes, as `write_trace` does. After a fault a prefix of them was appended.
pub fn write_section<D: Desk, S: TraceSim>(
    alloc: Global,
    desk: &mut D,
    tag: u8,
    name: &[u8],
    ports: &Ports,
    sim: &mut S,
    changes: &[Change],
) -> Result<(), Stop>
    requires inputs { length ports.now.inputs ≡ (S.machine sim.old).inputs }
    requires outputs { length ports.now.outputs ≡ (S.machine sim.old).outputs }
    requires start { S.stands sim.old [] }
    requires proper { IsProperFrom (S.machine sim.old).inputs [] changes.now }
    ensures text { WritesTrace (D.state desk.old) (D.state desk.new)
        (heading_text name.now ++ trace_text tag ports.now changes.now (lines_along (S.machine sim.old).line changes.now))
        result }
    ensures cause { StopsWithCause (D.faults desk.old) (D.faults desk.new) result }
{
    write_heading(desk, name)?;
    write_trace(alloc, desk, tag, ports, sim, changes)
}
