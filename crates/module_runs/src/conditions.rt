//! The conditions of a module's timing checks.
use crate::module_values::{ModuleValues, net_value};
use run_parts::Conditions;
use specify_blocks::VNet;
use trit_cubes::Trit;

impl<'a> Conditions for ModuleValues<'a> {
    ghost use Rattle.model_traces.specs.CheckReports.{is_enabled};

    ghost counts = { λ v. is_enabled v.tables.model.now v.inputs.now v.states.now };

    fn is_enabled(&self, condition: Option<usize>) -> bool {
        match condition {
            Some(wire) => net_value(self, VNet::Wire(wire)) == Trit::One,
            None => true,
        }
    }
}
