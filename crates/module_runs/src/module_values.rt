//! The values of a module's nets.
ghost use Rattle.std.specs.Prelude.{◌≡◌, Some};
ghost use Rattle.specify_blocks.specs.Nets.{has_state};
ghost use Rattle.module_runs.specs.KeptValues.{kept_values};
ghost use Rattle.model_traces.specs.NetValues.{value_from, net_value};

use crate::module_tables::ModuleTables;
use cell_machine::numbered_value;
use specify_blocks::{Instance, VNet};
use sqlite_items::at;
use trit_cubes::Trit;
use udp_tables::Udp;

/// A module with the values of its inputs, the states of its instances and what these drive, by which its nets have their values.
#[derive(Clone, Copy)]
pub struct ModuleValues<'a> {
    /// The module, with the keys of its tables.
    pub tables: ModuleTables<'a>,
    /// The value of each input.
    pub inputs: &'a [Trit],
    /// The state of each instance.
    pub states: &'a [Trit],
    /// What each instance without a state drives; X where it has one.
    pub kept: &'a [Trit],
    ghost current: { kept.now ≡ kept_values tables.model.now inputs.now states.now },
}

/// Whether an instance has a state.
pub(crate) fn has_state(udps: &[Udp], instance: &Instance) -> bool
    ensures { result ≡ has_state udps.now instance.now }
{
    match instance {
        Instance::Primitive { udp, .. } => match at(udps, *udp) {
            Some(udp) => udp.sequential,
            None => false,
        },
        Instance::Constant { .. } => false,
    }
}

/// What the instance at this place drives, unknown where there is none.
fn value_at(values: &ModuleValues, place: usize) -> Trit
    ensures { result ≡ value_from values.now.tables.model.now values.now.inputs.now values.now.states.now (Some place) }
{
    match at(values.tables.model.instances.as_slice(), place) {
        Some(instance) => {
            if has_state(values.tables.model.udps.as_slice(), instance) {
                numbered_value(values.states, place)
            } else {
                numbered_value(values.kept, place)
            }
        }
        None => Trit::Unknown,
    }
}

/// The value of a net that an instance drives: a wire or an output. Unknown where nothing drives it.
pub(crate) fn net_value(values: &ModuleValues, net: VNet) -> Trit
    ensures { result ≡ net_value values.now.tables.model.now values.now.inputs.now values.now.states.now net }
{
    match values.tables.driver(net) {
        Some(place) => value_at(values, place),
        None => Trit::Unknown,
    }
}
