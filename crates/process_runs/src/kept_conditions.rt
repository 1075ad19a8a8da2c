//! The values of the conditions of an entity, kept from one change to the next and found anew where an input of theirs changed.
//! `room` has place for the columns of any table.
ghost use Rattle.std.specs.Prelude.{◌≡◌, ◌<◌, All, length, map, drop, false, IfOk, Some, slice_get};
ghost use Rattle.model_traces.specs.ProcessValues.{truth_value};
ghost use Rattle.run_parts.specs.KeptDelays.{zeros};
ghost use Rattle.run_parts.specs.Places.{FindsAnew};
ghost use Rattle.process_runs.specs.EntityRooms.{IsSound, HasRoom};
ghost use Rattle.process_runs.specs.KeptConditions.{condition_values};

use crate::entity_tables::EntityTables;
use crate::process_values::truth_value;
use cell_machine::entry;
use run_parts::is_gate_changed;
use sqlite_items::Items;
use std::alloc::{AllocError, Global};
use trit_cubes::Trit;
use vital_models::VTruth;

/// The value of a condition, which has this number.
fn value_of(
    tables: &EntityTables,
    inputs: &[Trit],
    i: usize,
    truth: &VTruth,
    room: &mut Items<Trit>,
) -> Trit
    requires sound { IsSound tables.now.model.now }
    requires room { HasRoom (length room.old) tables.now.model.now }
    requires is { slice_get tables.now.model.now.conditions i ≡ Some truth.now }
    ensures value { result ≡ truth_value tables.now.model.now.ports inputs.now truth.now }
    ensures len { length room.new ≡ length room.old }
{
    truth_value(
        &tables.ports(),
        inputs,
        truth,
        tables.condition_rows(i),
        room,
    )
}

/// The value of each condition.
pub(crate) fn first_conditions(
    alloc: Global,
    tables: &EntityTables,
    inputs: &[Trit],
    room: &mut Items<Trit>,
) -> Result<Items<Trit>, AllocError>
    requires sound { IsSound tables.now.model.now }
    requires room { HasRoom (length room.old) tables.now.model.now }
    ensures values { IfOk result (λ values. values ≡ condition_values tables.now.model.now inputs.now) }
    ensures len { length room.new ≡ length room.old }
{
    let mut values = Items::new(alloc);
    for i in 0..tables.model.conditions.len() {
        let truth = entry(&tables.model.conditions, i);
        values.push(value_of(tables, inputs, i, truth, room))?;
    }
    Ok(values)
}

/// Finds the values of the conditions at these places anew. It answers whether one changed between 0 and not 0.
pub(crate) fn find_anew(
    tables: &EntityTables,
    inputs: &[Trit],
    places: &[usize],
    values: &mut Items<Trit>,
    room: &mut Items<Trit>,
) -> bool
    requires sound { IsSound tables.now.model.now }
    requires room { HasRoom (length room.old) tables.now.model.now }
    requires inside { All (λ place. place < length tables.now.model.now.conditions) places.now }
    requires one_each { length values.old ≡ length tables.now.model.now.conditions }
    ensures anew { FindsAnew (truth_value tables.now.model.now.ports inputs.now) tables.now.model.now.conditions places.now
        values.old values.new }
    ensures still { result ≡ false → zeros values.new ≡ zeros values.old }
    ensures room { length room.new ≡ length room.old }
{
    let mut changed = false;
    for j in 0..places.len() {
        let i = places[j];
        let truth = entry(&tables.model.conditions, i);
        let value = value_of(tables, inputs, i, truth, room);
        changed = is_gate_changed(changed, values.as_slice()[i], value);
        values.set(i, value);
    }
    changed
}
