//! The tables of a cell: of its groups, conditions and outputs.
ghost use Rattle.std.specs.Prelude.{◌≡◌, ◌<◌, length, slice_get, Some, IfOk};
ghost use Rattle.cell_machine.specs.CellData.{data_of};
ghost use Rattle.vital_tables.specs.udp_tables.Conditions.{conditions_of};
ghost use Rattle.vital_tables.specs.udp_tables.CellPrimitives.{condition_tree};
ghost use Rattle.vital_models.specs.Generated.{state_table, condition_table, output_table};

use cell_machine::OutputPin;
use cell_tables::{ModelSource, group_rows, has_notifier, part_rows};
use std::alloc::AllocError;
use vital_tables::primitives::Part;
use vital_tables::{StateTableRows, TruthTable, TruthTableRows, VStateTable, state_rows};

/// The state table of a group over its support.
pub(crate) fn state_table(from: &ModelSource, group: usize) -> Result<VStateTable, AllocError>
    requires { group < length from.now.cell.now.groups }
    ensures { IfOk result (λ table. table ≡ state_table (data_of from.now.cell.now) group) }
{
    let violation = has_notifier(from.cell);
    let pins = from.cell.group(group).support.len();
    let decisive = group_rows(from, group, StateTableRows { violation })?;
    Ok(VStateTable {
        rows: state_rows(from.alloc, violation, pins, decisive)?,
    })
}

/// The truth table of a condition, which the cell has with this number, over the pins that it names.
pub(crate) fn condition_table(from: &ModelSource, number: usize) -> Result<TruthTable, AllocError>
    requires { number < length (conditions_of (data_of from.now.cell.now)) }
    ensures { IfOk result (λ table. table ≡ condition_table (condition_tree (data_of from.now.cell.now) number)) }
{
    let rows = part_rows(from, Part::Condition(number), TruthTableRows)?;
    Ok(TruthTable { rows })
}

/// The truth table of an output, which the cell has with this number and which depends on something, over its support.
pub(crate) fn output_table(
    from: &ModelSource,
    number: usize,
    output: &OutputPin,
) -> Result<TruthTable, AllocError>
    requires is { slice_get from.now.cell.now.outputs number ≡ Some output.now }
    requires some { 0 < length output.now.support }
    ensures { IfOk result (λ table. table ≡ output_table (data_of from.now.cell.now) output.now) }
{
    let rows = part_rows(from, Part::Output(number), TruthTableRows)?;
    Ok(TruthTable { rows })
}
