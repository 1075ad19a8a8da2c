//! The section of a model in the report, from the start of its simulator on.
ghost use Rattle.std.specs.Prelude.{◌≡◌, [], ◌++◌, IfOk};
ghost use Rattle.text_io.specs.Desk.{StopsWithCause};
ghost use Rattle.stimulus.specs.{DriveLines.lines_along, TraceText.heading_text, TraceText.trace_text, Writes.WritesTrace};
ghost use Rattle.file_models.specs.FileModels.{machine_by};
ghost use Rattle.model_replay.specs.Replays.{CanBeGiven};

use cell_machine::Change;
use file_models::FileModel;
use std::alloc::{AllocError, Global};
use stimulus::{Ports, TraceSim, write_section};
use text_io::{Desk, Stop};
use verilog_grammar::modules::VModule;
use vital_models::VEntity;

/// The core of a model.
pub(crate) trait ModelCore: Drop {
    ghost use Rattle.cell_machine.specs.Lines.{Machine};

    /// What runs of it.
    ghost machine: { Self → Machine };
}

impl ModelCore for VModule {
    ghost use Rattle.model_traces.specs.ModuleTrace.{module_machine};

    ghost machine = { module_machine };
}

impl ModelCore for VEntity {
    ghost use Rattle.model_traces.specs.EntityTrace.{entity_machine};

    ghost machine = { entity_machine };
}

/// Appends the section of a model to the report: its name, and lines with this tag. Its simulator was started, unless memory was
/// wanting, and can be given these changes. After a fault a prefix of the section was appended.
pub(crate) fn write_model_section<D: Desk, M: ModelCore, S: TraceSim + Drop>(
    alloc: Global,
    desk: &mut D,
    tag: u8,
    model: &FileModel<M>,
    started: Result<S, AllocError>,
    ports: &Ports,
    changes: &[Change],
) -> Result<(), Stop>
    requires machine { IfOk started (λ sim. S.machine sim ≡ machine_by M.machine model.now) }
    requires stands { IfOk started (λ sim. S.stands sim []) }
    requires given { CanBeGiven (machine_by M.machine model.now) ports.now changes.now }
    ensures text { WritesTrace (D.state desk.old) (D.state desk.new)
        (heading_text model.now.name ++ trace_text tag ports.now changes.now
        (lines_along (machine_by M.machine model.now).line changes.now)) result }
    ensures cause { StopsWithCause (D.faults desk.old) (D.faults desk.new) result }
{
    match started {
        Ok(mut sim) => {
            let name = model.name.as_slice();
            write_section(alloc, desk, tag, name, ports, &mut sim, changes)
        }
        Err(_) => Err(Stop::Memory),
    }
}
