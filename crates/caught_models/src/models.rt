//! A model beside a cell: a Verilog module or a VITAL entity.
ghost use Rattle.std.specs.Prelude.{◌≡◌, [], length, IfOk};
ghost use Rattle.cell_machine.specs.CellData.{data_of};
ghost use Rattle.cell_machine.specs.CellTrace.{inputs_of, cell_trace};
ghost use Rattle.cell_machine.specs.History.{IsProperFrom};
ghost use Rattle.specify_blocks.specs.Sound as modules;
ghost use Rattle.vital_models.specs.Sound as entities;
ghost use Rattle.model_traces.specs.PortNumbers.{input_count, output_ports};
ghost use Rattle.model_traces.specs.ModuleTrace.{module_trace};
ghost use Rattle.model_traces.specs.EntityTrace.{entity_trace};
ghost use Rattle.caught_models.specs.Caught.{is_caught};

use crate::traces::is_caught;
use cell_machine::{Cell, Change};
use module_runs::VerilogSim;
use process_runs::VitalSim;
use specify_blocks::VModule;
use std::alloc::{AllocError, Global};
use vital_models::VEntity;

/// Whether the trace of a module on these changes is unlike that of the cell. `AllocError` comes only where memory is wanting.
pub fn is_module_caught(
    alloc: Global,
    cell: &Cell,
    model: &VModule,
    changes: &[Change],
) -> Result<bool, AllocError>
    requires sound { modules.IsSound model.now }
    requires inputs { inputs_of (data_of cell.now) ≡ input_count model.now.ports }
    requires outputs { length cell.now.outputs ≡ length (output_ports model.now.ports) }
    requires proper { IsProperFrom (inputs_of (data_of cell.now)) [] changes.now }
    ensures { IfOk result (λ caught. caught ≡ is_caught (cell_trace (data_of cell.now) changes.now)
        (module_trace model.now changes.now)) }
{
    let verilog = VerilogSim::start(alloc, model)?;
    is_caught(alloc, cell, verilog, changes)
}

/// Whether the trace of an entity on these changes is unlike that of the cell. `AllocError` comes only where memory is wanting.
pub fn is_entity_caught(
    alloc: Global,
    cell: &Cell,
    entity: &VEntity,
    changes: &[Change],
) -> Result<bool, AllocError>
    requires proper { IsProperFrom (inputs_of (data_of cell.now)) [] changes.now }
    requires sound { entities.IsSound entity.now }
    requires inputs { inputs_of (data_of cell.now) ≡ input_count entity.now.ports }
    requires outputs { length cell.now.outputs ≡ length entity.now.outputs }
    ensures { IfOk result (λ caught. caught ≡ is_caught (cell_trace (data_of cell.now) changes.now)
        (entity_trace entity.now changes.now)) }
{
    let vital = VitalSim::start(alloc, entity)?;
    is_caught(alloc, cell, vital, changes)
}
