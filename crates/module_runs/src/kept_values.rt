//! What the instances without a state drive, kept from one change to the next and found anew where a change feeds them. `room`
//! has place for the values of the nets that feed one instance.
ghost use Rattle.std.specs.Prelude.{◌≡◌, ◌<◌, All, false, length, map, take, IsTrue, IfOk};
ghost use Rattle.specify_blocks.specs.Sound.{IsSound};
ghost use Rattle.module_runs.specs.{Wiring.is_wired, Gates.gate_zeros};
ghost use Rattle.module_runs.specs.KeptValues.{kept_value, kept_values};
ghost use Rattle.run_parts.specs.Places.{FindsAnew};

use crate::gates::is_gate_changed_at;
use crate::module_states::ModuleStates;
use crate::module_tables::ModuleTables;
use crate::net_values::instance_value;
use crate::wiring::{instance_at, most_nets};
use run_parts::unknown_values;
use sqlite_items::Items;
use std::alloc::{AllocError, Global};
use trit_cubes::Trit;

/// What each instance drives, X where it has a state.
fn find_all(
    alloc: Global,
    values: &ModuleStates,
    room: &mut Items<Trit>,
) -> Result<Items<Trit>, AllocError>
    requires { IsTrue (is_wired (length room.old) values.now.tables.model.now) }
    ensures kept { IfOk result (λ kept. kept ≡ kept_values values.now.tables.model.now values.now.inputs.now
        values.now.states.now) }
    ensures len { length room.new ≡ length room.old }
{
    let mut kept = Items::new(alloc);
    for i in 0..values.tables.model.instances.len() {
        let instance = instance_at(values.tables.model, i);
        kept.push(instance_value(values, Trit::Unknown, instance, room))?;
    }
    Ok(kept)
}

/// What each instance of a sound module drives before any change, X where it has a state. The inputs and the states have these
/// values.
pub(crate) fn first_kept(
    alloc: Global,
    tables: &ModuleTables,
    inputs: &[Trit],
    states: &[Trit],
) -> Result<Items<Trit>, AllocError>
    requires { IsSound tables.now.model.now }
    ensures { IfOk result (λ kept. kept ≡ kept_values tables.now.model.now inputs.now states.now) }
{
    let values = ModuleStates {
        tables: *tables,
        inputs,
        states,
    };
    let mut room = unknown_values(alloc, most_nets(tables.model))?;
    find_all(alloc, &values, &mut room)
}

/// Finds anew what the instances at these places drive. It answers whether a gate changed between 0 and not 0.
pub(crate) fn find_anew(
    values: &ModuleStates,
    places: &[usize],
    kept: &mut Items<Trit>,
    room: &mut Items<Trit>,
) -> bool
    requires wired { IsTrue (is_wired (length room.old) values.now.tables.model.now) }
    requires inside { All (λ place. place < length values.now.tables.model.now.instances) places.now }
    requires one_each { length kept.old ≡ length values.now.tables.model.now.instances }
    ensures anew { FindsAnew (kept_value values.now.tables.model.now values.now.inputs.now values.now.states.now)
        values.now.tables.model.now.instances places.now kept.old kept.new }
    ensures still { result ≡ false → gate_zeros values.now.tables.index.now.gates.places kept.new
        ≡ gate_zeros values.now.tables.index.now.gates.places kept.old }
    ensures room { length room.new ≡ length room.old }
{
    let mut changed = false;
    for j in 0..places.len() {
        let i = places[j];
        let instance = instance_at(values.tables.model, i);
        let value = instance_value(values, Trit::Unknown, instance, room);
        changed = is_gate_changed_at(&values.tables, i, changed, kept.as_slice()[i], value);
        kept.set(i, value);
    }
    changed
}
