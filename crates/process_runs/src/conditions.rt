//! The conditions of an entity's timing checks.
use crate::entity_values::{EntityValues, condition_value};
use run_parts::Conditions;
use trit_cubes::Trit;

impl<'a> Conditions for EntityValues<'a> {
    ghost use Rattle.model_traces.specs.ProcessValues.{is_enabled};

    ghost counts = { λ v. is_enabled v.tables.model.now v.inputs.now };

    fn is_enabled(&self, condition: Option<usize>) -> bool {
        match condition {
            Some(i) => condition_value(self, i) == Trit::One,
            None => true,
        }
    }
}
