//! The gates of a module's paths: the wires by which `if` paths are active, and the instances that drive them.
ghost use Rattle.std.specs.Prelude.{◌≡◌, ◌<◌, false, length, slice_get, slice_index_or, Some, replicate, IfOk};
ghost use Rattle.specify_blocks.specs.declared.model.Instance.{Instance as InstanceOf};
ghost use Rattle.specify_blocks.specs.Nets.{has_state};
ghost use Rattle.specify_blocks.specs.declared.model.VPath.{VPath as VPathOf};
ghost use Rattle.module_runs.specs.NetDrivers.{AreDrivers};
ghost use Rattle.module_runs.specs.Gates.{IsGate, AreGates, gate_zero};

use crate::drivers::Drivers;
use crate::module_tables::ModuleTables;
use crate::module_values::has_state;
use run_parts::put;
use specify_blocks::{Gate, VModule, VNet, VPath};
use sqlite_items::{Items, at};
use std::alloc::{AllocError, Global};
use trit_cubes::Trit;

/// The instances that drive gates of paths.
#[derive(Drop)]
pub struct Gates {
    /// For each instance whether it drives a gate.
    pub places: Items<bool>,
    /// Whether one of these has a state.
    pub stateful: bool,
}

impl Gates {
    /// The gates of a module. `AllocError` comes only where memory is wanted and not there.
    pub(crate) fn of(alloc: Global, model: &VModule, drivers: &Drivers) -> Result<Gates, AllocError>
        requires { AreDrivers model.now.instances drivers.now }
        ensures { IfOk result (λ gates. AreGates model.now gates) }
    {
        let places = no_gates(alloc, model.instances.len())?;
        let mut gates = Gates {
            places,
            stateful: false,
        };
        let paths = model.paths.as_slice();
        for i in 0..paths.len() {
            gates.note(model, drivers, paths[i]);
        }
        Ok(gates)
    }

    /// Notes the gate of a path.
    fn note(&mut self, model: &VModule, drivers: &Drivers, path: VPath)
        requires drivers { AreDrivers model.now.instances drivers.now }
        requires one_each { length self.old.places ≡ length model.now.instances }
        ensures own { IsGate model.now self.new path }
        ensures others { (other : VPathOf) → IsGate model.now self.old other → IsGate model.now self.new other }
        ensures one_each { length self.new.places ≡ length model.now.instances }
    {
        let Gate::If(wire) = path.gate else {
            return;
        };
        let Some(place) = drivers.driver(model, VNet::Wire(wire)) else {
            return;
        };
        put(&mut self.places, place, true);
        self.stateful = is_stateful(model, place, self.stateful);
    }
}

/// No gates of so many instances.
fn no_gates(alloc: Global, count: usize) -> Result<Items<bool>, AllocError>
    ensures { IfOk result (λ places. places ≡ replicate count false) }
{
    let places = vec![in alloc; false; count]?;
    Ok(Items::from_vec(places))
}

/// Whether one of those before has a state, or the instance at this place has one.
fn is_stateful(model: &VModule, place: usize, before: bool) -> bool
    ensures before { result ≡ false → before ≡ false }
    ensures own { (x : InstanceOf) → slice_get model.now.instances place ≡ Some x → result ≡ false
        → has_state model.now.udps x ≡ false }
{
    let instances = model.instances.as_slice();
    match at(instances, place) {
        Some(instance) => before || has_state(model.udps.as_slice(), instance),
        None => before,
    }
}

/// Whether a value is 0 and that of a gate.
fn gate_zero(gate: bool, value: Trit) -> bool
    ensures { result ≡ gate_zero gate value }
{
    gate && value == Trit::Zero
}

/// Whether some gate changed before, or the instance at this place drives one that changes between 0 and not 0.
pub(crate) fn is_gate_changed_at(
    tables: &ModuleTables,
    place: usize,
    before: bool,
    was: Trit,
    now: Trit,
) -> bool
    ensures { result ≡ false → (before ≡ false)
        × (gate_zero (slice_index_or tables.now.index.now.gates.places place false) was
        ≡ gate_zero (slice_index_or tables.now.index.now.gates.places place false) now) }
{
    if was == now {
        return before;
    }
    let gate = is_gate(tables.index.gates.places.as_slice(), place);
    before || gate_zero(gate, was) != gate_zero(gate, now)
}

/// Whether the instance at this place drives a gate.
fn is_gate(places: &[bool], place: usize) -> bool
    ensures { result ≡ slice_index_or places.now place false }
{
    match places.get(place) {
        Some(gate) => *gate,
        None => false,
    }
}

/// Whether one of these holds.
pub(crate) fn either(one: bool, other: bool) -> bool
    ensures { result ≡ false → (one ≡ false) × (other ≡ false) }
{
    one || other
}
