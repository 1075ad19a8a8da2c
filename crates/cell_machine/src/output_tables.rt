//! The values of a cell's outputs by tables of their functions.
ghost use Rattle.std.specs.Prelude.{◌≡◌, ◌+◌, ◌<◌, ◌≤◌, ◌++◌, length, map, slice_get, Some, IfOk};
ghost use Rattle.trit_cubes.specs.Sets.{AreValuesOf};
ghost use Rattle.cell_machine.specs.declared.outputs.OutputPin.{OutputPin as OutputPinOf};
ghost use Rattle.cell_machine.specs.CellData.{data_of};
ghost use Rattle.cell_machine.specs.CellTrace.{source_value as source_value_of, sources_at, output_value_at};
ghost use Rattle.cell_machine.specs.CellTrace.{output_value as output_value_of};
ghost use Rattle.cell_machine.specs.OutputTables.{AreOutputTables};

use crate::cells::Cell;
use crate::entries::entry;
use crate::evaluation::output_at;
use crate::few::Few;
use crate::outputs::Source;
use crate::pin_values::{numbered_value, pin_value};
use crate::pins::Pin;
use crate::tabled::tabled;
use sqlite_items::Items;
use std::alloc::{AllocError, Global};
use trit_cubes::{Trit, values_of};

/// The value of an output at a point of its support. Unknown where the point has another number of places.
pub fn point_value(cell: &Cell, output: usize, point: &[bool]) -> Trit
    requires { output < length cell.now.outputs }
    ensures { length point.now ≡ length (sources_at (data_of cell.now) output)
        → result ≡ output_value_at (data_of cell.now) output point.now }
{
    if point.len() != cell.output_pin(output).support.len() {
        return Trit::Unknown;
    }
    output_at(cell, output, point)
}

/// The values of an output at all points of its support, each at the number of its point.
pub fn output_values(alloc: Global, cell: &Cell, output: usize) -> Result<Vec<Trit>, AllocError>
    requires { output < length cell.now.outputs }
    ensures { IfOk result (λ values. AreValuesOf (length (sources_at (data_of cell.now) output))
        (output_value_at (data_of cell.now) output) values.items) }
{
    let places = cell.output_pin(output).support.len();
    let values = values_of(
        alloc,
        places,
        &|point: &[bool]| { point_value(cell, output, point) },
    )?;
    Ok(values)
}

/// The same of each output.
pub fn output_tables(alloc: Global, cell: &Cell) -> Result<Items<Items<Trit>>, AllocError>
    ensures { IfOk result (AreOutputTables (data_of cell.now)) }
{
    let mut tables = Items::new(alloc);
    for output in 0..cell.outputs.len() {
        let values = output_values(alloc, cell, output)?;
        tables.push(Items::from_vec(values))?;
    }
    Ok(tables)
}

/// Adds the values of the sources of an output, of which there are at most ten.
fn add_values(
    values: &mut Few<Trit, 10>,
    pins: &[Pin],
    inputs: &[Trit],
    states: &[Trit],
    sources: &[Source],
)
    requires { length values.old + length sources.now ≤ 10 }
    ensures { values.new ≡ values.old ++ map (source_value_of pins.now inputs.now states.now) sources.now }
{
    for source in sources {
        values.push(source_value(pins, inputs, states, *source));
    }
}

/// The value of a source.
fn source_value(pins: &[Pin], inputs: &[Trit], states: &[Trit], source: Source) -> Trit
    ensures { result ≡ source_value_of pins.now inputs.now states.now source }
{
    match source {
        Source::Pin(pin) => pin_value(pins, inputs, pin),
        Source::State(g) => numbered_value(states, g),
    }
}

/// The value of an output where the inputs and the states have these values.
#[inline(always)]
pub fn output_value(
    cell: &Cell,
    tables: &Items<Items<Trit>>,
    output: usize,
    inputs: &[Trit],
    states: &[Trit],
) -> Trit
    requires tables { AreOutputTables (data_of cell.now) tables.now }
    requires inside { output < length cell.now.outputs }
    ensures { (pin : OutputPinOf) → slice_get cell.now.outputs output ≡ Some pin
        → result ≡ output_value_of cell.now.pins cell.now.groups inputs.now states.now pin }
{
    let sources = cell.output_pin(output).support.as_slice();
    let mut places = Few::new(Trit::Unknown);
    add_values(&mut places, cell.pins.as_slice(), inputs, states, sources);
    tabled(entry(tables, output).as_slice(), places.as_slice())
}
