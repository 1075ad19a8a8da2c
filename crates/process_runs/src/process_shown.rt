//! What the outputs of an entity show after a change of an input.
ghost use Rattle.std.specs.Prelude.{◌≡◌, ◌≤◌, Some, length, map, slice_get, IfOk};
ghost use Rattle.cell_machine.specs.Each.{each};
ghost use Rattle.vital_models.specs.Sound.{IsOutput, IsSound};
ghost use Rattle.run_parts.specs.KeptDelays.{AreKept};
ghost use Rattle.process_runs.specs.EntityRooms.{source_count, HasRoom};
ghost use Rattle.process_runs.specs.EntitySteps.{output_first, output_step};
ghost use Rattle.process_runs.specs.KeptConditions.{condition_values};
ghost use Rattle.process_runs.specs.NumberedPaths.{numbered_paths};
ghost use Rattle.process_runs.specs.TableRows.{rows_of_value};

use crate::entity_tables::EntityTables;
use crate::entity_values::EntityValues;
use crate::process_delays::least_delay;
use crate::process_values::output_value;
use crate::table_rows::TableRows;
use cell_machine::entry;
use run_parts::{KeptDelays, OutputChange, ShownPort};
use sqlite_items::Items;
use std::alloc::{AllocError, Global};
use trit_cubes::Trit;
use vital_models::VOutput;

/// What the output with this number shows after a change of an input. This is known of the rows of its table.
fn output_step(
    values: &EntityValues,
    input: usize,
    number: usize,
    output: &VOutput,
    known: &TableRows,
    was: ShownPort,
    delays: &mut KeptDelays,
    room: &mut Items<Trit>,
) -> ShownPort
    requires sound { IsSound values.now.tables.model.now }
    requires output { IsOutput values.now.tables.model.now output.now }
    requires is { slice_get values.now.tables.model.now.outputs number ≡ Some output.now }
    requires known { known.now ≡ rows_of_value output.now.value }
    requires kept { AreKept (numbered_paths values.now.tables.model.now values.now.inputs.now) delays.old }
    requires room { HasRoom (length room.old) values.now.tables.model.now }
    requires columns { source_count output.now.value ≤ length room.old }
    ensures shown { result ≡ output_step values.now.tables.model.now values.now.inputs.now values.now.states.now input output.now
        was }
    ensures kept { AreKept (numbered_paths values.now.tables.model.now values.now.inputs.now) delays.new }
    ensures len { length room.new ≡ length room.old }
{
    let value = output_value(values, &output.value, known, room);
    let change = OutputChange {
        input,
        port: output.port,
        from: was.value,
        to: value,
    };
    let delay = if was.value == value {
        None
    } else {
        Some(least_delay(values, number, change, output, delays))
    };
    ShownPort {
        port: output.port,
        value,
        delay,
    }
}

/// Takes what the outputs show over a change of an input. `inputs` and `states` are those after it.
pub(crate) fn show_entity(
    values: &EntityValues,
    input: usize,
    shown: &mut Items<ShownPort>,
    delays: &mut KeptDelays,
    room: &mut Items<Trit>,
)
    requires sound { IsSound values.now.tables.model.now }
    requires room { HasRoom (length room.old) values.now.tables.model.now }
    requires one_each { length shown.old ≡ length values.now.tables.model.now.outputs }
    requires kept { AreKept (numbered_paths values.now.tables.model.now values.now.inputs.now) delays.old }
    ensures stepped { shown.new ≡ each (output_step values.now.tables.model.now values.now.inputs.now values.now.states.now input)
        values.now.tables.model.now.outputs shown.old }
    ensures len { length shown.new ≡ length shown.old }
    ensures kept { AreKept (numbered_paths values.now.tables.model.now values.now.inputs.now) delays.new }
    ensures room { length room.new ≡ length room.old }
{
    for i in 0..shown.len() {
        let output = entry(&values.tables.model.outputs, i);
        let known = values.tables.output_rows(i);
        let was = shown.as_slice()[i];
        let now = output_step(values, input, i, output, known, was, delays, room);
        shown.set(i, now);
    }
}

/// What the outputs show at the start: no delays.
fn show_start(
    alloc: Global,
    values: &EntityValues,
    room: &mut Items<Trit>,
) -> Result<Items<ShownPort>, AllocError>
    requires sound { IsSound values.now.tables.model.now }
    requires room { HasRoom (length room.old) values.now.tables.model.now }
    ensures shown { IfOk result (λ shown. shown ≡ map
        (output_first values.now.tables.model.now values.now.inputs.now values.now.states.now)
        values.now.tables.model.now.outputs) }
    ensures len { length room.new ≡ length room.old }
{
    let mut shown = Items::new(alloc);
    for i in 0..values.tables.model.outputs.len() {
        let output = entry(&values.tables.model.outputs, i);
        let known = values.tables.output_rows(i);
        let value = output_value(values, &output.value, known, room);
        shown.push(ShownPort {
            port: output.port,
            value,
            delay: None,
        })?;
    }
    Ok(shown)
}

/// What the outputs show before any change, where the inputs, the states and the conditions have these values.
pub(crate) fn first_shown(
    alloc: Global,
    tables: &EntityTables,
    conditions: &[Trit],
    inputs: &[Trit],
    states: &[Trit],
    room: &mut Items<Trit>,
) -> Result<Items<ShownPort>, AllocError>
    requires sound { IsSound tables.now.model.now }
    requires room { HasRoom (length room.old) tables.now.model.now }
    requires current { conditions.now ≡ condition_values tables.now.model.now inputs.now }
    ensures { IfOk result (λ shown. shown ≡ map (output_first tables.now.model.now inputs.now states.now)
        tables.now.model.now.outputs) }
{
    let values = EntityValues {
        tables: *tables,
        inputs,
        states,
        conditions,
    };
    show_start(alloc, &values, room)
}
