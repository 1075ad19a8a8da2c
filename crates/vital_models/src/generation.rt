//! The entity of a cell.
ghost use Rattle.std.specs.Prelude.{◌≡◌, ◌<◌, ◌≤◌, ◌++◌, map, length, slice_get, slice_index_or, Some, IfOk, OnOk};
ghost use Rattle.bool_functions.specs.Tree.{name_bound};
ghost use Rattle.cell_machine.specs.CellData.{data_of};
ghost use Rattle.vital_tables.specs.udp_tables.Conditions.{conditions_of};
ghost use Rattle.vital_tables.specs.udp_tables.CellPrimitives.{condition_tree};
ghost use Rattle.vital_models.specs.Generated.{ports_at, state_of, states_of, condition_of, source_at, value_of_output};
ghost use Rattle.vital_models.specs.Generated.{output_of, entity_of};

use crate::ports::vital_ports;
use crate::tables::{condition_table, output_table, state_table};
use crate::timing::{entity_checks, paths_to};
use bool_functions::Function;
use cell_machine::{OutputPin, Pin, Source, Values};
use cell_tables::{ModelSource, all_made, has_notifier, has_sources};
use sqlite_items::Items;
use std::alloc::{AllocError, Global};
use vital_tables::primitives::port_number;
use vital_tables::{OutValue, VEntity, VOutput, VState, VTruth};

/// The entity of a cell, with this name: a state for each group, a truth table for each condition and for each output that
/// depends on something, a path for each arc, and the checks. What it answers is sound. `AllocError` comes only where memory is
/// wanting.
pub fn vital_model(from: &ModelSource, name: &[u8]) -> Result<VEntity, AllocError>
    ensures { IfOk result (λ entity. entity ≡ entity_of (data_of from.now.cell.now) name.now) }
{
    let ModelSource { alloc, cell, .. } = *from;
    let ports = all_made(
        Items::from_slice(alloc, name),
        vital_ports(alloc, cell.pins.as_slice(), name),
    );
    let tables = all_made(states_of(from), conditions_of(from));
    let ends = all_made(outputs_of(from), entity_checks(from));
    let ((name, ports), (tables, ends)) = all_made(ports, all_made(tables, ends))?;
    let (states, conditions) = tables;
    let (outputs, checks) = ends;
    Ok(VEntity {
        name,
        ports,
        checks,
        states,
        conditions,
        outputs,
    })
}

/// The states of the groups.
fn states_of(from: &ModelSource) -> Result<Items<VState>, AllocError>
    ensures { IfOk result (λ states. states ≡ states_of (data_of from.now.cell.now)) }
{
    let mut states = Items::new(from.alloc);
    for group in 0..from.cell.groups.len() {
        states.push(state_of(from, group)?)?;
    }
    Ok(states)
}

/// The state of a group, with its table.
fn state_of(from: &ModelSource, group: usize) -> Result<VState, AllocError>
    requires { group < length from.now.cell.now.groups }
    ensures { IfOk result (λ state. state ≡ state_of (data_of from.now.cell.now) group) }
{
    let ModelSource { alloc, cell, .. } = *from;
    let support = cell.group(group).support.as_slice();
    Ok(VState {
        table: state_table(from, group)?,
        violation: has_notifier(cell),
        inputs: ports_at(alloc, cell.pins.as_slice(), support)?,
    })
}

/// The ports of these pins.
fn ports_at(alloc: Global, pins: &[Pin], support: &[usize]) -> Result<Items<usize>, AllocError>
    ensures { IfOk result (λ ports. ports ≡ ports_at pins.now support.now) }
{
    let mut ports = Items::new(alloc);
    for pin in support {
        ports.push(port_number(pins, *pin))?;
    }
    Ok(ports)
}

/// The truth tables of the cell's conditions.
fn conditions_of(from: &ModelSource) -> Result<Items<VTruth>, AllocError>
    ensures { IfOk result (λ truths. truths ≡ map (condition_of from.now.cell.now.pins)
        (map (λ f. f.now) from.now.conditions.now)) }
{
    let conditions = from.conditions;
    let mut truths = Items::new(from.alloc);
    for (i, condition) in conditions.iter().enumerate() {
        truths.push(condition_of(from, i, condition)?)?;
    }
    Ok(truths)
}

/// The truth table of the condition with this number.
fn condition_of(
    from: &ModelSource,
    number: usize,
    condition: &Function,
) -> Result<VTruth, AllocError>
    requires number { number < length (conditions_of (data_of from.now.cell.now)) }
    requires is { condition_tree (data_of from.now.cell.now) number ≡ condition.now }
    ensures { IfOk result (λ truth. truth ≡ condition_of from.now.cell.now.pins condition.now) }
{
    let names = condition.support(from.alloc)?;
    Ok(VTruth {
        table: condition_table(from, number)?,
        inputs: ports_at(from.alloc, from.cell.pins.as_slice(), &names)?,
    })
}

/// What drives the output pins.
fn outputs_of(from: &ModelSource) -> Result<Items<VOutput>, AllocError>
    ensures { IfOk result (λ outputs. outputs ≡ map (output_of (data_of from.now.cell.now)) from.now.cell.now.outputs) }
{
    let mut outputs = Items::new(from.alloc);
    for i in 0..from.cell.outputs.len() {
        let output = from.cell.output_pin(i);
        outputs.push(output_of(from, i, output)?)?;
    }
    Ok(outputs)
}

/// What drives the output pin with this number among the outputs.
fn output_of(from: &ModelSource, number: usize, output: &OutputPin) -> Result<VOutput, AllocError>
    requires is { slice_get from.now.cell.now.outputs number ≡ Some output.now }
    requires bounded { name_bound output.now.function ≤ 96 }
    ensures { IfOk result (λ made. made ≡ output_of (data_of from.now.cell.now) output.now) }
{
    Ok(VOutput {
        port: port_number(from.cell.pins.as_slice(), output.pin),
        value: value_of(from, number, output)?,
        paths: paths_to(from, output.pin)?,
    })
}

/// The value of the output with this number: a constant where it depends on nothing, else a table.
fn value_of(from: &ModelSource, number: usize, output: &OutputPin) -> Result<OutValue, AllocError>
    requires is { slice_get from.now.cell.now.outputs number ≡ Some output.now }
    requires bounded { name_bound output.now.function ≤ 96 }
    ensures { IfOk result (λ value. value ≡ value_of_output (data_of from.now.cell.now) output.now) }
{
    if has_sources(output) {
        let pins = from.cell.pins.as_slice();
        Ok(OutValue::Table {
            table: output_table(from, number, output)?,
            inputs: sources_at(from.alloc, pins, output.support.as_slice())?,
        })
    } else {
        Ok(OutValue::Constant(Values::new().value(&output.function)))
    }
}

/// The sources with the ports of their pins.
fn sources_at(alloc: Global, pins: &[Pin], support: &[Source]) -> Result<Items<Source>, AllocError>
    ensures { IfOk result (λ sources. sources ≡ map (source_at pins.now) support.now) }
{
    let mut sources = Items::new(alloc);
    for source in support {
        sources.push(source_at(pins, *source))?;
    }
    Ok(sources)
}

/// A source with the port of its pin.
fn source_at(pins: &[Pin], source: Source) -> Source
    ensures { result ≡ source_at pins.now source }
{
    match source {
        Source::Pin(pin) => Source::Pin(port_number(pins, pin)),
        Source::State(group) => Source::State(group),
    }
}
