//! The models of one accepted cell of a library.
ghost use Rattle.std.specs.Prelude.{◌≡◌, IsTrue};
ghost use Rattle.text_io.specs.declared.slots.Slot.TheVariants.{Output};
ghost use Rattle.text_io.specs.declared.slots.OutSlot.TheVariants.{VerilogText, VitalText};
ghost use Rattle.text_io.specs.Desk.{is_bound, StopsWithCause};
ghost use Rattle.cell_machine.specs.CellData.{data_of};
ghost use Rattle.three_state_cells.specs.DrivenCells.{driven_data_of, may_float as may_float_of};
ghost use Rattle.specify_blocks.specs.Generated.{module_of};
ghost use Rattle.verilog_writer.specs.Model.{module_text};
ghost use Rattle.vital_models.specs.Generated.{entity_of};
ghost use Rattle.vhdl_writer.specs.Entity.{entity_text};
ghost use Rattle.run_outcome.specs.Written.{Writes, in_verilog, in_vital};
ghost use Rattle.library_translation.specs.Cells.{ModelsAreBound, core_entity_name, verilog_drivers_text, model_text};
ghost use Rattle.library_translation.specs.Cells.{vital_drivers_text, vital_text, models_written};

use crate::stopped::stopped;
use generated_drivers::{verilog_driver, vital_driver};
use specify_blocks::verilog_model;
use std::alloc::Global;
use text_io::{Desk, Stop};
use three_state_cells::DrivenCell;
use verilog_drivers::write_driver as write_verilog_driver;
use verilog_writer::write_model;
use vhdl_drivers::write_driver as write_vital_driver;
use vhdl_tokens::numbered_name;
use vhdl_writer::write_entity;
use vital_models::{ModelParts, ModelSource, vital_model};

/// Whether some outputs of a cell may float.
pub(crate) fn may_float(cell: &DrivenCell) -> bool
    ensures { result ≡ may_float_of (driven_data_of cell.now) }
{
    cell.driver.drives.len() > 0
}

/// Writes the Verilog module of a core.
fn write_module<D: Desk>(desk: &mut D, core: &ModelSource) -> Result<(), Stop>
    requires { IsTrue (is_bound (D.state desk.old) (Output VerilogText)) }
    ensures text { Writes (D.state desk.old) (D.state desk.new)
        (in_verilog (module_text (module_of (data_of core.now.cell.now)))) result }
    ensures cause { StopsWithCause (D.faults desk.old) (D.faults desk.new) result }
{
    let model = verilog_model(core)?;
    stopped(write_model(desk, &model))
}

/// Writes the Verilog model of a cell's three-state drivers, where some of its outputs may float.
fn write_verilog_drivers<D: Desk>(
    alloc: Global,
    desk: &mut D,
    cell: &DrivenCell,
) -> Result<(), Stop>
    requires { IsTrue (is_bound (D.state desk.old) (Output VerilogText)) }
    ensures text { Writes (D.state desk.old) (D.state desk.new) (in_verilog (verilog_drivers_text (driven_data_of cell.now)))
        result }
    ensures cause { StopsWithCause (D.faults desk.old) (D.faults desk.new) result }
{
    if !may_float(cell) {
        return Ok(());
    }
    let model = verilog_driver(alloc, cell)?;
    stopped(write_verilog_driver(desk, &model))
}

/// A cell, and its core as what its models are made of.
#[derive(Clone, Copy)]
struct CellSource<'a> {
    /// The cell.
    cell: &'a DrivenCell,
    /// Its core.
    core: ModelSource<'a>,
}

/// Writes the Verilog model of a cell: the module of its core, and its drivers behind it.
fn write_verilog<D: Desk>(desk: &mut D, source: CellSource) -> Result<(), Stop>
    requires bound { IsTrue (is_bound (D.state desk.old) (Output VerilogText)) }
    requires core { source.core.cell.now ≡ source.cell.now.core }
    ensures text { Writes (D.state desk.old) (D.state desk.new)
        (in_verilog (model_text (driven_data_of source.entry.cell.now))) result }
    ensures cause { StopsWithCause (D.faults desk.old) (D.faults desk.new) result }
{
    write_module(desk, &source.core)?;
    write_verilog_drivers(source.core.alloc, desk, source.cell)
}

/// Writes the entity of a core, with this name.
fn write_entity_of<D: Desk>(desk: &mut D, core: &ModelSource, entity: &[u8]) -> Result<(), Stop>
    requires { IsTrue (is_bound (D.state desk.old) (Output VitalText)) }
    ensures text { Writes (D.state desk.old) (D.state desk.new)
        (in_vital (entity_text (entity_of (data_of core.now.cell.now) entity.now))) result }
    ensures cause { StopsWithCause (D.faults desk.old) (D.faults desk.new) result }
{
    let model = vital_model(core, entity)?;
    stopped(write_entity(desk, &model))
}

/// Writes the entity of the core of a cell whose VHDL model has this name.
fn write_core_entity<D: Desk>(desk: &mut D, source: CellSource, entity: &[u8]) -> Result<(), Stop>
    requires bound { IsTrue (is_bound (D.state desk.old) (Output VitalText)) }
    requires core { source.core.cell.now ≡ source.cell.now.core }
    ensures text { Writes (D.state desk.old) (D.state desk.new)
        (in_vital (entity_text (entity_of (data_of source.entry.cell.now.core)
        (core_entity_name entity.now (driven_data_of source.entry.cell.now))))) result }
    ensures cause { StopsWithCause (D.faults desk.old) (D.faults desk.new) result }
{
    if may_float(source.cell) {
        let name = numbered_name(source.core.alloc, b"cell", source.cell.core.number)?;
        write_entity_of(desk, &source.core, name.as_slice())
    } else {
        write_entity_of(desk, &source.core, entity)
    }
}

/// Writes the VHDL model, with this name, of a cell's three-state drivers, where some of its outputs may float.
fn write_vital_drivers<D: Desk>(
    alloc: Global,
    desk: &mut D,
    cell: &DrivenCell,
    entity: &[u8],
) -> Result<(), Stop>
    requires { IsTrue (is_bound (D.state desk.old) (Output VitalText)) }
    ensures text { Writes (D.state desk.old) (D.state desk.new)
        (in_vital (vital_drivers_text entity.now (driven_data_of cell.now))) result }
    ensures cause { StopsWithCause (D.faults desk.old) (D.faults desk.new) result }
{
    if !may_float(cell) {
        return Ok(());
    }
    let model = vital_driver(alloc, cell, entity)?;
    stopped(write_vital_driver(desk, &model))
}

/// Writes the VHDL model of a cell, with this name: the entity of its core, and its drivers behind it.
fn write_vital<D: Desk>(desk: &mut D, source: CellSource, entity: &[u8]) -> Result<(), Stop>
    requires bound { IsTrue (is_bound (D.state desk.old) (Output VitalText)) }
    requires core { source.core.cell.now ≡ source.cell.now.core }
    ensures text { Writes (D.state desk.old) (D.state desk.new)
        (in_vital (vital_text entity.now (driven_data_of source.entry.cell.now))) result }
    ensures cause { StopsWithCause (D.faults desk.old) (D.faults desk.new) result }
{
    write_core_entity(desk, source, entity)?;
    write_vital_drivers(source.core.alloc, desk, source.cell, entity)
}

/// Writes both models of a cell, the Verilog model and then the VHDL model with this name.
#[tactic(auto, unfolding(crate::specs::Cells::models_written))]
pub(crate) fn write_models<D: Desk>(
    alloc: Global,
    desk: &mut D,
    cell: &DrivenCell,
    entity: &[u8],
) -> Result<(), Stop>
    requires { ModelsAreBound (D.state desk.old) }
    ensures text { Writes (D.state desk.old) (D.state desk.new) (models_written entity.now (driven_data_of cell.now)) result }
    ensures cause { StopsWithCause (D.faults desk.old) (D.faults desk.new) result }
{
    let parts = ModelParts::of(alloc, &cell.core)?;
    let core = parts.source();
    let source = CellSource { cell, core };
    write_verilog(desk, source)?;
    write_vital(desk, source, entity)
}
