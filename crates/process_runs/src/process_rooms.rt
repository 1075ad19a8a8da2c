//! The parts of an entity, and the room that a run of it needs.
ghost use Rattle.std.specs.Prelude.{◌≡◌, ◌≤◌, All};
ghost use Rattle.vital_models.specs.Sound.{columns_of};
ghost use Rattle.process_runs.specs.EntityRooms.{source_count, HasRoom};

use crate::entity_rows::Tabled;
use vital_models::{OutValue, VEntity, VState};

/// How many input columns the table of a state has.
pub(crate) fn columns_of(state: &VState) -> usize
    ensures { result ≡ columns_of state.now }
{
    let inputs = state.inputs.as_slice();
    if state.violation {
        inputs.len() + 1
    } else {
        inputs.len()
    }
}

/// How many columns the table of an output has.
pub(crate) fn source_count(value: &OutValue) -> usize
    ensures { result ≡ source_count value.now }
{
    match value {
        OutValue::Constant(_) => 0,
        OutValue::Table { inputs, .. } => inputs.len(),
    }
}

/// The most columns of a table of these parts.
fn most_of<T: Tabled>(parts: &[T]) -> usize
    ensures { All (λ p. T.columns p ≤ result) parts.now }
{
    let mut most = 0;
    for part in parts {
        most = most.max(part.columns());
    }
    most
}

/// The most columns of any table.
pub(crate) fn most_columns(model: &VEntity) -> usize
    ensures { HasRoom result model.now }
{
    let states = most_of(model.states.as_slice());
    let conditions = most_of(model.conditions.as_slice());
    let outputs = most_of(model.outputs.as_slice());
    states.max(conditions).max(outputs)
}
