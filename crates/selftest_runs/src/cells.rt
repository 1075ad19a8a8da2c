//! What is counted of one cell.
ghost use Rattle.std.specs.Prelude.{◌≡◌, [], IfOk, count_by};
ghost use Rattle.cell_machine.specs.{CellData.data_of, CellTrace.inputs_of, CellTrace.cell_trace, Inputs.is_input_at};
ghost use Rattle.cell_machine.specs.History.{IsProperFrom};
ghost use Rattle.three_state_cells.specs.DrivenCells.{driven_data_of};
ghost use Rattle.selftest_runs.specs.{EntityNames.IsNameOfEntity, EntityNames.IsNameWherePlain, Counts.known_in};
ghost use Rattle.selftest_runs.specs.{CellCounts.changes_by, CellCounts.counts_on, CellCounts.cell_counts};
ghost use Rattle.selftest_runs.specs.LibraryCounts.{driven_counts};

use crate::counts::{Counts, known_from_start, one_if};
use crate::models::{is_damaged_entity_caught, is_damaged_module_caught};
use cell_machine::{Cell, Change, Direction, LibertySim, Pin};
use selftest_cells::{cell_changes, changes_are_proper};
use sqlite_items::Items;
use std::alloc::{AllocError, Global};
use three_state_cells::DrivenCell;

/// The changes of the cell with this number, where it has so many inputs: one without inputs is run on none.
fn drawn_changes(alloc: Global, number: usize, inputs: usize) -> Result<Items<Change>, AllocError>
    ensures changes { IfOk result (λ list. list ≡ changes_by number inputs) }
    ensures proper { IfOk result (λ list. IsProperFrom inputs [] list) }
{
    changes_are_proper();
    if inputs == 0 {
        return Ok(Items::new(alloc));
    }
    Ok(cell_changes(alloc, number as u64, inputs)?)
}

/// How many of the pins are inputs.
fn input_count(pins: &[Pin]) -> usize
    ensures { result ≡ count_by is_input_at pins.now }
{
    pins.iter()
        .filter(|pin| pin.direction == Direction::Input)
        .count()
}

/// What is counted of a cell on these changes, after which so many of its output values are 0 or 1.
#[tactic(auto, unfolding(crate::specs::CellCounts::counts_on))]
fn counts_on(
    alloc: Global,
    cell: &Cell,
    entity: &[u8],
    changes: &[Change],
    known: u64,
) -> Result<Counts, AllocError>
    requires name { IsNameOfEntity (data_of cell.now) entity.now }
    requires proper { IsProperFrom (inputs_of (data_of cell.now)) [] changes.now }
    requires known { known ≡ known_in (cell_trace (data_of cell.now) changes.now) }
    ensures { IfOk result (λ counts. counts ≡ counts_on changes.now (data_of cell.now) entity.now) }
{
    let verilog = is_damaged_module_caught(alloc, cell, changes)?;
    let vital = is_damaged_entity_caught(alloc, cell, entity, changes)?;
    Ok(Counts {
        known,
        verilog: one_if(verilog),
        vital: one_if(vital),
    })
}

/// What is counted of a cell whose VITAL entity has this name. Its models are written, read back, and run beside it on the
/// changes that are drawn for its number, and so are the damaged models. The name is one that an entity of the cell has. An `Err`
/// comes only where memory is wanting or a count comes to 2 to the 64th.
pub fn count_cell(alloc: Global, cell: &Cell, entity: &[u8]) -> Result<Counts, AllocError>
    requires { IsNameOfEntity (data_of cell.now) entity.now }
    ensures { IfOk result (λ counts. counts ≡ cell_counts (data_of cell.now) entity.now) }
{
    let drawn = drawn_changes(alloc, cell.number, input_count(cell.pins.as_slice()))?;
    let changes = drawn.as_slice();
    let known = known_from_start(LibertySim::start(alloc, cell), changes)?;
    counts_on(alloc, cell, entity, changes, known)
}

/// What is counted of a cell whose VITAL model has this name: nothing where some of its outputs may float. Where none may, the
/// name is one that an entity of the cell has. An `Err` comes only where memory is wanting or a count comes to 2 to the 64th.
pub(crate) fn count_driven(
    alloc: Global,
    cell: &DrivenCell,
    entity: &[u8],
) -> Result<Counts, AllocError>
    requires { IsNameWherePlain (driven_data_of cell.now) entity.now }
    ensures { IfOk result (λ counts. counts ≡ driven_counts (driven_data_of cell.now) entity.now) }
{
    if cell.driver.drives.len() > 0 {
        return Ok(Counts::none());
    }
    count_cell(alloc, &cell.core, entity)
}
