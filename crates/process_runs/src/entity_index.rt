//! What a simulator knows of its entity before any change.
use crate::entity_rows::{EntityRows, entity_rows};
use crate::fed_conditions::Conditions;
use cell_machine::entry;
use run_parts::{DelayPlaces, Ports, fed_by_inputs, input_count, input_numbers};
use sqlite_items::Items;
use std::alloc::{AllocError, Global};
use vital_models::VEntity;

/// What a simulator knows of its entity before any change, so that a change looks for nothing along the entity.
#[derive(Drop)]
pub struct EntityIndex {
    /// What is known of the rows of its tables.
    pub rows: EntityRows,
    /// For each port how many inputs stand before it.
    pub numbers: Items<usize>,
    /// For each output the places where the delays of its paths are kept.
    pub places: Items<DelayPlaces>,
    /// For each input the places of the conditions that it feeds.
    pub fed: Items<Items<usize>>,
}

impl EntityIndex {
    ghost use Rattle.std.specs.Prelude.{IfOk};
    ghost use Rattle.process_runs.specs.EntityIndexed.{IsEntityIndex};

    /// What is known of an entity. `AllocError` comes only where memory is wanted and not there.
    pub(crate) fn of(alloc: Global, model: &VEntity) -> Result<EntityIndex, AllocError>
        ensures { IfOk result (λ index. IsEntityIndex model.now index) }
    {
        let numbers = input_numbers(alloc, model.ports.as_slice())?;
        let ports = Ports {
            list: model.ports.as_slice(),
            numbers: numbers.as_slice(),
        };
        let fed = fed_by_inputs::<Conditions>(alloc, &ports, model.conditions.as_slice())?;
        let places = delay_places(alloc, model)?;
        let rows = entity_rows(alloc, model)?;
        Ok(EntityIndex {
            rows,
            numbers,
            fed,
            places,
        })
    }
}

/// For each output of an entity the places where the delays of its paths are kept.
fn delay_places(alloc: Global, model: &VEntity) -> Result<Items<DelayPlaces>, AllocError> {
    let inputs = input_count(model.ports.as_slice());
    let mut all = Items::new(alloc);
    let mut last = DelayPlaces::none();
    for i in 0..model.outputs.len() {
        last = last.behind(inputs, entry(&model.outputs, i).paths.len());
        all.push(last)?;
    }
    Ok(all)
}
