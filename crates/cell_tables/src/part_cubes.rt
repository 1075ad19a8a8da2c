//! The cubes of a cell's conditions and outputs.
ghost use Rattle.std.specs.Prelude.{◌≡◌, ◌<◌, length, IfOk};
ghost use Rattle.cell_machine.specs.CellData.{data_of};
ghost use Rattle.cell_machine.specs.CellTrace.{sources_at, output_value_at};
ghost use Rattle.udp_tables.specs.Conditions.{IsSmall, support_of, condition_at};
ghost use Rattle.cell_tables.specs.Cubes.{function_cubes};

use crate::cubes::FunctionCubes;
use crate::function_cubes::{function_cubes, table_cubes};
use bool_functions::Function;
use cell_machine::{Cell, output_values};
use std::alloc::{AllocError, Global};

/// The cubes of a condition over the pins that it names.
pub(crate) fn condition_cubes(
    alloc: Global,
    condition: &Function,
) -> Result<FunctionCubes, AllocError>
    requires { IsSmall condition.now }
    ensures { IfOk result (λ cubes. cubes ≡ function_cubes (length (support_of condition.now))
        (condition_at (support_of condition.now) condition.now)) }
{
    let names = condition.support(alloc)?;
    let pins: &[usize] = &names;
    let values = condition.table(alloc, pins)?;
    let cubes = table_cubes(alloc, pins.len(), &values)?;
    Ok(cubes)
}

/// The cubes of an output over the pins and states of its support.
pub(crate) fn output_cubes(
    alloc: Global,
    cell: &Cell,
    output: usize,
) -> Result<FunctionCubes, AllocError>
    requires { output < length cell.now.outputs }
    ensures { IfOk result (λ cubes. cubes ≡ function_cubes (length (sources_at (data_of cell.now) output))
        (output_value_at (data_of cell.now) output)) }
{
    let places = cell.output_pin(output).support.len();
    let values = output_values(alloc, cell, output)?;
    let cubes = function_cubes(alloc, places, &values)?;
    Ok(cubes)
}
