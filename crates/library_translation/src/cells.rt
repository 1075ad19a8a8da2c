//! One accepted cell of a library: its models and its lines.
ghost use Rattle.text_io.specs.declared.slots.OutSlot.TheVariants.{Report};
ghost use Rattle.text_io.specs.Desk.{HasCause, StopsWithCause, WritesText};
ghost use Rattle.three_state_cells.specs.DrivenCells.{driven_data_of};
ghost use Rattle.run_outcome.specs.Written.{Writes};
ghost use Rattle.library_translation.specs.Cells.{ModelsAreBound, accepted_lines, accepted_written};

use crate::models::write_models;
use crate::test_lines::write_test;
use liberty_groups::Group;
use library_reader::{write_accepted_cell, write_left_out_groups};
use std::alloc::Global;
use text_io::{Desk, Failed, Stop};
use three_state_cells::DrivenCell;

/// Writes the report lines of an accepted cell.
#[tactic(auto, unfolding(crate::specs::Cells::accepted_lines))]
fn write_lines<D: Desk>(desk: &mut D, cell: &DrivenCell) -> Result<(), Failed>
    ensures text { WritesText (D.state desk.old) (D.state desk.new) Report
        (accepted_lines cell.now.core.number cell.now.name cell.now.core.pins cell.now.left_out) result }
    ensures cause { HasCause (D.faults desk.old) (D.faults desk.new) result }
{
    let number = cell.core.number;
    write_accepted_cell(desk, number, cell.name.as_slice())?;
    write_left_out_groups(
        desk,
        number,
        cell.core.pins.as_slice(),
        cell.left_out.as_slice(),
    )
}

/// Writes the models of an accepted cell, whose VHDL model has this name, its report lines, and the line on the test cell of its
/// group.
#[tactic(auto, unfolding(crate::specs::Cells::accepted_written))]
pub(crate) fn write_accepted<D: Desk>(
    alloc: Global,
    desk: &mut D,
    cell: &DrivenCell,
    entity: &[u8],
    group: &Group,
) -> Result<(), Stop>
    requires { ModelsAreBound (D.state desk.old) }
    ensures text { Writes (D.state desk.old) (D.state desk.new) (accepted_written entity.now (driven_data_of cell.now) group.now)
        result }
    ensures cause { StopsWithCause (D.faults desk.old) (D.faults desk.new) result }
{
    write_models(alloc, desk, cell, entity)?;
    write_lines(desk, cell)?;
    write_test(alloc, desk, cell, group)
}
