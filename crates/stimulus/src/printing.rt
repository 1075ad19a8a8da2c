//! The lines of a trace, printed one after another as the simulator takes the changes.
ghost use Rattle.std.specs.Prelude.{◌≡◌, ◌<◌, List, length, IfSome};
ghost use Rattle.std.specs.Option.{option_copied};
ghost use Rattle.cell_machine.specs.declared.changes.Change.{Change as ChangeOf};
ghost use Rattle.stimulus.specs.DriveLines.{lines_along};
ghost use Rattle.text_io.specs.declared.slots.OutSlot.TheVariants.{Report};
ghost use Rattle.text_io.specs.Desk.{StopsWithCause};
ghost use Rattle.stimulus.specs.TraceLine.{drive_line_text};
ghost use Rattle.stimulus.specs.TraceText.{trace_text};
ghost use Rattle.stimulus.specs.Writes.{CanBegin, WritesTrace, PutsTrace};

use crate::trace::push_shown;
use crate::waiting::{Waiting, put_tagged};
use crate::{Ports, TraceSim};
use cell_machine::{Change, Few};
use std::alloc::Global;
use text_io::{Desk, OutSlot, Stop, write_whole};

/// Gives the changes to a simulator that stands at its start, and appends the lines of its trace to the report, one for
/// the start and one for each change, each with this tag and the names of these ports.
///
/// It needs as many names as the simulator has inputs and outputs, and changes of its inputs at times that rise strictly.
/// After a fault a prefix of the lines was appended. `Failed` comes only where a write failed.
pub(crate) fn write_trace<D: Desk, S: TraceSim>(
    alloc: Global,
    desk: &mut D,
    tag: u8,
    ports: &Ports,
    sim: &mut S,
    changes: &[Change],
) -> Result<(), Stop>
    requires { CanBegin ports.now (S.machine sim.old) (S.stands sim.old) changes.now }
    ensures text { WritesTrace (D.state desk.old) (D.state desk.new)
        (trace_text tag ports.now changes.now (lines_along (S.machine sim.old).line changes.now)) result }
    ensures cause { StopsWithCause (D.faults desk.old) (D.faults desk.new) result }
{
    let mut waiting = Few::new(0);
    let mut text = Vec::new(alloc);
    put_line(desk, &mut waiting, &mut text, tag, None, ports, sim)?;
    for change in changes {
        sim.step(change.at, change.pin, change.to);
        put_line(desk, &mut waiting, &mut text, tag, Some(change), ports, sim)?;
    }
    write_whole(desk, OutSlot::Report, waiting.as_slice())?;
    Ok(())
}

/// Puts the line that a simulator shows behind the bytes that wait. The text takes what of it is too long to wait.
pub(crate) fn put_line<D: Desk, S: TraceSim>(
    desk: &mut D,
    waiting: &mut Waiting,
    text: &mut Vec<u8>,
    tag: u8,
    change: Option<&Change>,
    ports: &Ports,
    sim: &S,
) -> Result<(), Stop>
    requires inputs { length ports.now.inputs ≡ (S.machine sim.now).inputs }
    requires outputs { length ports.now.outputs ≡ (S.machine sim.now).outputs }
    requires pin { IfSome change (λ change. change.now.pin < (S.machine sim.now).inputs) }
    ensures text { (h : List ChangeOf) → S.stands sim.now h
        → PutsTrace (D.state desk.old) (D.state desk.new) waiting.old
        (drive_line_text tag (option_copied change.entry) ports.now.inputs ports.now.outputs ((S.machine sim.now).line h))
        waiting.new result }
    ensures cause { StopsWithCause (D.faults desk.old) (D.faults desk.new) result }
{
    let mut pieces = Few::new(0);
    text.clear();
    push_shown(text, &mut pieces, change, ports, sim)?;
    put_tagged(desk, waiting, tag, text.as_slice(), &pieces)?;
    Ok(())
}
