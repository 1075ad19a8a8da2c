//! What the instances of a module drive, found by their tables of the values of its inputs and the states of its instances.
//! `room` has place for the values of the nets that feed one instance.
ghost use Rattle.std.specs.Prelude.{◌≡◌, ◌≤◌, ◌<◌, length, map, false, IsTrue, slice_index_or};
ghost use Rattle.trit_cubes.specs.declared.trits.Trit.TheVariants.{Unknown};
ghost use Rattle.trit_cubes.specs.Filling.{trit_of};
ghost use Rattle.module_runs.specs.Wiring.{is_table, is_joined, is_wired};
ghost use Rattle.model_traces.specs.NetValues.{kept_state, source_value, primitive_value, instance_value};

use crate::module_states::ModuleStates;
use crate::tables::Table;
use cell_machine::numbered_value;
use row_masks::{ColumnValues, ValueChange, masked_level, write_news};
use run_parts::input_value;
use specify_blocks::{Instance, VNet};
use sqlite_items::{Items, at};
use trit_cubes::Trit;
use udp_tables::keyed_level;

/// The state of the instance at this place, unknown where there is none.
fn kept_state(states: &[Trit], place: Option<usize>) -> Trit
    ensures { result ≡ kept_state states.now place }
{
    match place {
        Some(place) => numbered_value(states, place),
        None => Trit::Unknown,
    }
}

/// The value of a net that feeds a primitive without a state.
fn source_value(values: &ModuleStates, net: VNet) -> Trit
    ensures { result ≡ source_value values.now.tables.model.now values.now.inputs.now values.now.states.now net }
{
    match net {
        VNet::Port(port) => input_value(&values.tables.ports(), values.inputs, port),
        VNet::Wire(wire) => kept_state(values.states, values.tables.driver(VNet::Wire(wire))),
        VNet::Notifier => Trit::Unknown,
    }
}

/// The values of the nets that feed a primitive without a state.
#[derive(Clone, Copy)]
struct StateNets<'a> {
    /// The values of the inputs and the states.
    values: &'a ModuleStates<'a>,
    /// The nets.
    nets: &'a [VNet],
}

impl<'a> ColumnValues for StateNets<'a> {
    ghost use Rattle.std.specs.Prelude.{map};
    ghost use Rattle.model_traces.specs.NetValues.{source_value};

    ghost olds = { λ s. map
        (source_value s.values.now.tables.model.now s.values.now.inputs.now s.values.now.states.now) s.nets.now };

    ghost news = { λ s. map
        (source_value s.values.now.tables.model.now s.values.now.inputs.now s.values.now.states.now) s.nets.now };

    fn change(&self, place: usize) -> ValueChange {
        let value = source_value(self.values, self.nets[place]);
        ValueChange {
            old: value,
            new: value,
        }
    }
}

/// What a primitive drives whose instance has this state.
fn primitive_value(
    values: &ModuleStates,
    state: Trit,
    nets: &[VNet],
    table: &Table,
    room: &mut Items<Trit>,
) -> Trit
    requires room { length nets.now ≤ length room.old }
    requires table { IsTrue (is_table table.now.udp.now) }
    requires entries { length nets.now ≡ length table.now.udp.now.inputs }
    ensures value { result ≡ primitive_value values.now.tables.model.now values.now.inputs.now values.now.states.now state
        nets.now table.now.udp.now }
    ensures len { length room.new ≡ length room.old }
{
    if table.udp.sequential {
        return state;
    }
    let columns = StateNets { values, nets };
    if let Some(masks) = at(table.masks, 0) {
        return masked_level(table.udp, masks, &columns);
    }
    write_news(&columns, nets.len(), room);
    keyed_level(table.udp, table.keys, &room.as_slice()[..nets.len()])
}

/// What an instance with this state drives.
pub(crate) fn instance_value(
    values: &ModuleStates,
    state: Trit,
    instance: &Instance,
    room: &mut Items<Trit>,
) -> Trit
    requires wired { IsTrue (is_wired (length room.old) values.now.tables.model.now) }
    requires joined { IsTrue (is_joined values.now.tables.model.now.udps (length room.old) instance.now) }
    ensures value { result ≡ instance_value values.now.tables.model.now values.now.inputs.now values.now.states.now state
        instance.now }
    ensures len { length room.new ≡ length room.old }
{
    match instance {
        Instance::Primitive {
            udp: number,
            inputs: nets,
            ..
        } => match values.tables.model.udps.get(*number) {
            Some(udp) => {
                let table = values.tables.table(*number, udp);
                primitive_value(values, state, nets.as_slice(), &table, room)
            }
            None => Trit::Unknown,
        },
        Instance::Constant { one, .. } => Trit::from(*one),
    }
}
