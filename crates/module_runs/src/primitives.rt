//! The next states of a module's primitives at a change of an input or of the register of the checks. `room` has place for the
//! values of the nets that feed one instance.
ghost use Rattle.std.specs.Prelude.{◌≡◌, ◌≤◌, ◌<◌, length, map, slice_set, position, false, IsTrue};
ghost use Rattle.model_traces.specs.declared.turns.Turned.TheVariants as turned;
ghost use Rattle.udp_tables.specs.Sequential.{udp_next};
ghost use Rattle.module_runs.specs.NetChanges.{entry_values};
ghost use Rattle.module_runs.specs.Wiring.{is_table, is_joined, is_wired};
ghost use Rattle.model_traces.specs.Primitives.{is_turned, entry_value, primitive_next, next_state, next_states};

use crate::module_tables::ModuleTables;
use crate::tables::Table;
use crate::wiring::instance_at;
use model_traces::{Turn, Turned};
use row_masks::{ColumnValues, ValueChange, masked_next, write_news};
use run_parts::{Ports, input_number, input_value};
use specify_blocks::{Instance, VNet};
use sqlite_items::{Items, at};
use trit_cubes::Trit;
use udp_tables::{is_input_port, keyed_next};

/// Whether this net is the register of the checks.
fn is_register(ports: &Ports, net: VNet) -> bool
    ensures { result ≡ is_turned ports.now.list.now turned.Notifier net }
{
    match net {
        VNet::Port(_) => false,
        VNet::Wire(_) => false,
        VNet::Notifier => true,
    }
}

/// Whether this net is an input.
fn is_input(ports: &Ports, input: usize, net: VNet) -> bool
    ensures { result ≡ is_turned ports.now.list.now (turned.Input input) net }
{
    match net {
        VNet::Port(port) => is_input_port(ports.list, port) && input_number(ports, port) == input,
        VNet::Wire(_) => false,
        VNet::Notifier => false,
    }
}

/// The place of what changes among the nets that feed a primitive, where it is there.
fn place_of(ports: &Ports, what: Turned, nets: &[VNet]) -> Option<usize>
    ensures { result ≡ position (is_turned ports.now.list.now what) nets.now }
{
    match what {
        Turned::Input(input) => nets.iter().position(|net| is_input(ports, input, *net)),
        Turned::Notifier => nets.iter().position(|net| is_register(ports, *net)),
    }
}

/// The value of a net that feeds a primitive with a state.
fn entry_value(ports: &Ports, inputs: &[Trit], notifier: Trit, net: VNet) -> Trit
    ensures { result ≡ entry_value ports.now.list.now inputs.now notifier net }
{
    match net {
        VNet::Port(port) => input_value(ports, inputs, port),
        VNet::Wire(_) => Trit::Unknown,
        VNet::Notifier => notifier,
    }
}

/// The values of the nets that feed a primitive at a change of one of them.
#[derive(Clone, Copy)]
struct NetChanges<'a> {
    /// The ports of the module.
    ports: Ports<'a>,
    /// The value of each input after the change.
    inputs: &'a [Trit],
    /// That of the register of the checks.
    notifier: Trit,
    /// The nets.
    nets: &'a [VNet],
    /// The place of the net that changes.
    place: usize,
    /// The value that it had.
    from: Trit,
}

impl<'a> ColumnValues for NetChanges<'a> {
    ghost use Rattle.std.specs.Prelude.{map, slice_set};
    ghost use Rattle.model_traces.specs.Primitives.{entry_value};

    ghost olds = { λ s. slice_set (map (entry_value s.ports.list.now s.inputs.now s.notifier) s.nets.now) s.place s.from };

    ghost news = { λ s. map (entry_value s.ports.list.now s.inputs.now s.notifier) s.nets.now };

    fn change(&self, place: usize) -> ValueChange {
        let new = entry_value(&self.ports, self.inputs, self.notifier, self.nets[place]);
        let old = if place == self.place { self.from } else { new };
        ValueChange { old, new }
    }
}

/// The next state of a primitive at a change of one of the nets that feed it.
fn table_next(table: &Table, state: Trit, changes: &NetChanges, room: &mut Items<Trit>) -> Trit
    requires table { IsTrue (is_table table.now.udp.now) }
    requires entries { length changes.now.nets.now ≡ length table.now.udp.now.inputs }
    requires room { length changes.now.nets.now ≤ length room.old }
    ensures next { result ≡ udp_next table.now.udp.now.rows
        (slice_set (entry_values changes.now) changes.now.place changes.now.from) (entry_values changes.now) state }
    ensures len { length room.new ≡ length room.old }
{
    if let Some(masks) = at(table.masks, 0) {
        return masked_next(table.udp, masks, state, changes);
    }
    let count = changes.nets.len();
    write_news(changes, count, room);
    keyed_next(
        table.udp,
        table.keys,
        state,
        &room.as_slice()[..count],
        changes.place,
        changes.from,
    )
}

/// The next state of an instance of a primitive that these nets feed.
fn primitive_next(
    ports: &Ports,
    inputs: &[Trit],
    notifier: Trit,
    turn: Turn,
    nets: &[VNet],
    state: Trit,
    table: &Table,
    room: &mut Items<Trit>,
) -> Trit
    requires table { IsTrue (is_table table.now.udp.now) }
    requires entries { length nets.now ≡ length table.now.udp.now.inputs }
    requires room { length nets.now ≤ length room.old }
    ensures next { result ≡ primitive_next ports.now.list.now inputs.now notifier turn nets.now state table.now.udp.now }
    ensures len { length room.new ≡ length room.old }
{
    if !table.udp.sequential {
        return state;
    }
    let Some(place) = place_of(ports, turn.what, nets) else {
        return state;
    };
    let changes = NetChanges {
        ports: *ports,
        inputs,
        notifier,
        nets,
        place,
        from: turn.from,
    };
    table_next(table, state, &changes, room)
}

/// The next state of an instance.
fn next_state(
    tables: &ModuleTables,
    inputs: &[Trit],
    notifier: Trit,
    turn: Turn,
    instance: &Instance,
    state: Trit,
    room: &mut Items<Trit>,
) -> Trit
    requires wired { IsTrue (is_wired (length room.old) tables.now.model.now) }
    requires joined { IsTrue (is_joined tables.now.model.now.udps (length room.old) instance.now) }
    ensures next { result ≡ next_state tables.now.model.now inputs.now notifier turn instance.now state }
    ensures len { length room.new ≡ length room.old }
{
    match instance {
        Instance::Primitive {
            udp: number,
            inputs: nets,
            ..
        } => match tables.model.udps.get(*number) {
            Some(udp) => {
                let table = tables.table(*number, udp);
                let nets = nets.as_slice();
                primitive_next(
                    &tables.ports(),
                    inputs,
                    notifier,
                    turn,
                    nets,
                    state,
                    &table,
                    room,
                )
            }
            None => state,
        },
        Instance::Constant { .. } => state,
    }
}

/// Whether some state changed before, or this one does.
fn is_changed(before: bool, state: Trit, next: Trit) -> bool
    ensures { result ≡ false → (before ≡ false) × (state ≡ next) }
{
    before || state != next
}

/// Takes the states of all instances over a change: those that it feeds may take others. `inputs` and `notifier` are the values
/// after it. It answers whether some state changed.
pub(crate) fn step_states(
    tables: &ModuleTables,
    inputs: &[Trit],
    notifier: Trit,
    turn: Turn,
    states: &mut Items<Trit>,
    room: &mut Items<Trit>,
) -> bool
    requires wired { IsTrue (is_wired (length room.old) tables.now.model.now) }
    requires one_each { length states.old ≡ length tables.now.model.now.instances }
    ensures stepped { states.new ≡ next_states tables.now.model.now inputs.now notifier turn states.old }
    ensures still { result ≡ false → states.new ≡ states.old }
    ensures len { length states.new ≡ length states.old }
    ensures room { length room.new ≡ length room.old }
{
    let mut changed = false;
    let places = tables.fed_by(turn.what);
    for j in 0..places.len() {
        let i = places[j];
        let instance = instance_at(tables.model, i);
        let state = states.as_slice()[i];
        let next = next_state(tables, inputs, notifier, turn, instance, state, room);
        states.set(i, next);
        changed = is_changed(changed, state, next);
    }
    changed
}
