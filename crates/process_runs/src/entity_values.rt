//! What the conditions and the outputs of an entity have their values by.
ghost use Rattle.std.specs.Prelude.{◌≡◌};
ghost use Rattle.model_traces.specs.ProcessValues.{condition_value};
ghost use Rattle.process_runs.specs.KeptConditions.{condition_values};

use crate::entity_tables::EntityTables;
use cell_machine::numbered_value;
use trit_cubes::Trit;

/// An entity with the values of its inputs, its states and its conditions, by which its outputs have their values.
#[derive(Clone, Copy)]
pub struct EntityValues<'a> {
    /// The value of each input.
    pub inputs: &'a [Trit],
    /// Each state.
    pub states: &'a [Trit],
    /// The value of each condition.
    pub conditions: &'a [Trit],
    /// The entity, with the words of its tables.
    pub tables: EntityTables<'a>,
    ghost current: { conditions.now ≡ condition_values tables.model.now inputs.now },
}

/// The value of the condition with this number, unknown where there is none.
pub(crate) fn condition_value(values: &EntityValues, i: usize) -> Trit
    ensures { result ≡ condition_value values.now.tables.model.now values.now.inputs.now i }
{
    numbered_value(values.conditions, i)
}
