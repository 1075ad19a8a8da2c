//! A simulator of a model beside that of its cell.
ghost use Rattle.std.specs.Prelude.{◌≡◌, [], length, IfOk, is_some};
ghost use Rattle.cell_machine.specs.CellData.{data_of};
ghost use Rattle.cell_machine.specs.CellTrace.{inputs_of, cell_trace};
ghost use Rattle.cell_machine.specs.History.{IsProperFrom};
ghost use Rattle.cell_machine.specs.Lines.{trace};
ghost use Rattle.stimulus.specs.DriveLines.{lines_along};
ghost use Rattle.stimulus.specs.Differences.{first_difference as first_difference_of};
ghost use Rattle.caught_models.specs.Caught.{is_caught};

use cell_machine::{Cell, CellSim, Change, LibertySim};
use std::alloc::{AllocError, Global};
use stimulus::{TraceSim, first_difference};

/// Whether the trace on these changes of what a simulator runs is unlike that of the cell. The simulator stands at its start.
/// `AllocError` comes only where memory is wanting.
pub(crate) fn is_caught<S: CellSim + Drop>(
    alloc: Global,
    cell: &Cell,
    model: S,
    changes: &[Change],
) -> Result<bool, AllocError>
    requires stands { S.stands model [] }
    requires inputs { inputs_of (data_of cell.now) ≡ (S.machine model).inputs }
    requires outputs { length cell.now.outputs ≡ (S.machine model).outputs }
    requires proper { IsProperFrom (inputs_of (data_of cell.now)) [] changes.now }
    ensures { IfOk result (λ caught. caught ≡ is_caught (cell_trace (data_of cell.now) changes.now)
        (trace (S.machine model).line changes.now)) }
{
    let liberty = LibertySim::start(alloc, cell)?;
    Ok(are_unlike(liberty, model, changes))
}

/// Whether two simulators that stand at their starts show something else there or after one of these changes.
fn are_unlike<A: TraceSim + Drop, B: TraceSim + Drop>(
    mut left: A,
    mut right: B,
    changes: &[Change],
) -> bool
    requires inputs { (A.machine left).inputs ≡ (B.machine right).inputs }
    requires outputs { (A.machine left).outputs ≡ (B.machine right).outputs }
    requires left { A.stands left [] }
    requires right { B.stands right [] }
    requires proper { IsProperFrom (A.machine left).inputs [] changes.now }
    ensures { result ≡ is_some (first_difference_of (lines_along (A.machine left).line changes.now)
        (lines_along (B.machine right).line changes.now)) }
{
    first_difference(&mut left, &mut right, changes).is_some()
}
