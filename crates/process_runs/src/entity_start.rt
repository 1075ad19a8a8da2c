//! An entity before any change.
ghost use Rattle.std.specs.Prelude.{◌≡◌, [], length, map, IfOk};
ghost use Rattle.model_traces.specs.PortNumbers.{input_count};
ghost use Rattle.process_runs.specs.{EntityIndexed.IsEntityIndex, EntityRooms.IsSound, EntityRooms.HasRoom};
ghost use Rattle.process_runs.specs.EntitySteps.{HasParts, start_state, output_first, output_shown};
ghost use Rattle.process_runs.specs.EntityStarts.{IsEntityStart};
ghost use Rattle.process_runs.specs.KeptConditions.{condition_values};

use crate::entity_index::EntityIndex;
use crate::entity_tables::EntityTables;
use crate::kept_conditions::first_conditions;
use crate::process_rooms::most_columns;
use crate::process_run::{EntityState, start_state};
use crate::process_shown::first_shown;
use run_parts::{ShownPort, unknown_values};
use sqlite_items::Items;
use std::alloc::{AllocError, Global};
use trit_cubes::Trit;
use vital_models::VEntity;

/// What is known of an entity before any change, which all its simulators begin with.
#[derive(Drop)]
pub struct EntityStart {
    /// The value of each condition.
    pub conditions: Items<Trit>,
    /// Where its parts are found.
    pub index: EntityIndex,
    /// What its outputs show.
    pub shown: Items<ShownPort>,
}

impl EntityStart {
    /// What is known of a sound entity before any change: all inputs and states are unknown. `AllocError` comes only where memory
    /// is wanted and not there.
    pub fn of(alloc: Global, model: &VEntity) -> Result<EntityStart, AllocError>
        requires { IsSound model.now }
        ensures { IfOk result (λ start. IsEntityStart model.now start) }
    {
        let index = EntityIndex::of(alloc, model)?;
        let first = first_values(alloc, model, &index)?;
        Ok(EntityStart {
            index,
            conditions: first.0,
            shown: first.1,
        })
    }

    /// The state with which a simulator of a sound entity begins.
    pub(crate) fn state(&self, alloc: Global, model: &VEntity) -> Result<EntityState, AllocError>
        requires { IsEntityStart model.now self.now }
        ensures run { IfOk result (λ state. state.run ≡ start_state model.now) }
        ensures conditions { IfOk result (λ state. state.conditions ≡ condition_values model.now state.run.inputs) }
        ensures earlier { IfOk result (λ state. HasRoom (length state.earlier) model.now) }
        ensures room { IfOk result (λ state. HasRoom (length state.room) model.now) }
        ensures each_input { IfOk result (λ state. length state.run.inputs ≡ input_count model.now.ports) }
        ensures one_each { IfOk result (λ state. HasParts model.now state.run) }
    {
        let most = most_columns(model);
        let conditions = Items::from_slice(alloc, self.conditions.as_slice())?;
        let earlier = unknown_values(alloc, most)?;
        let room = unknown_values(alloc, most)?;
        Ok(EntityState {
            run: start_state(alloc, model)?,
            conditions,
            earlier,
            room,
        })
    }
}

/// The values of an entity's conditions before any change, and what its outputs show there.
fn first_values(
    alloc: Global,
    model: &VEntity,
    index: &EntityIndex,
) -> Result<(Items<Trit>, Items<ShownPort>), AllocError>
    requires sound { IsSound model.now }
    requires indexed { IsEntityIndex model.now index.now }
    ensures conditions { IfOk result (λ first. first.0 ≡ condition_values model.now (start_state model.now).inputs) }
    ensures shown { IfOk result (λ first. first.1 ≡ map (output_shown model.now []) model.now.outputs) }
{
    let tables = EntityTables { model, index };
    let run = start_state(alloc, model)?;
    values_at(alloc, &tables, run.inputs.as_slice(), run.states.as_slice())
}

/// The values of an entity's conditions where its inputs and its states have these, and what its outputs show there.
fn values_at(
    alloc: Global,
    tables: &EntityTables,
    inputs: &[Trit],
    states: &[Trit],
) -> Result<(Items<Trit>, Items<ShownPort>), AllocError>
    requires { IsSound tables.now.model.now }
    ensures conditions { IfOk result (λ first. first.0 ≡ condition_values tables.now.model.now inputs.now) }
    ensures shown { IfOk result (λ first. first.1 ≡ map (output_first tables.now.model.now inputs.now states.now)
        tables.now.model.now.outputs) }
{
    let mut room = unknown_values(alloc, most_columns(tables.model))?;
    let conditions = first_conditions(alloc, tables, inputs, &mut room)?;
    let known = conditions.as_slice();
    let shown = first_shown(alloc, tables, known, inputs, states, &mut room)?;
    Ok((conditions, shown))
}
