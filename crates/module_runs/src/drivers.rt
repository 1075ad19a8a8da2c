//! The drivers of a module's nets.
ghost use Rattle.std.specs.Prelude.{◌≡◌, ℕ, Option, None, Some, slice_get, slice_set, cond, replicate, IfOk};
ghost use Rattle.specify_blocks.specs.declared.model.VNet.{VNet};
ghost use Rattle.specify_blocks.specs.Nets.{same_net};
ghost use Rattle.model_traces.specs.NetValues.{driver};
ghost use Rattle.module_runs.specs.NetDrivers.{known_driver, IsKnown, AreDrivers};

use run_parts::put;
use specify_blocks::{Instance, VModule, VNet};
use sqlite_items::{Items, at};
use std::alloc::{AllocError, Global};

/// For each port and each wire of a module the place of the first instance that drives it, where there is one.
#[derive(Drop)]
pub struct Drivers {
    /// Those of the ports.
    pub ports: Items<Option<usize>>,
    /// Those of the wires.
    pub wires: Items<Option<usize>>,
}

impl Drivers {
    /// The drivers of a module's ports and wires. `AllocError` comes only where memory is wanted and not there.
    pub(crate) fn of(alloc: Global, model: &VModule) -> Result<Drivers, AllocError>
        ensures { IfOk result (λ drivers. AreDrivers model.now.instances drivers) }
    {
        let ports = no_drivers(alloc, model.ports.len())?;
        let wires = no_drivers(alloc, model.wires.len())?;
        let mut drivers = Drivers { ports, wires };
        let instances = model.instances.as_slice();
        for i in (0..instances.len()).rev() {
            drivers.note(instances[i].net_driven(), i);
        }
        Ok(drivers)
    }

    /// The place of the instance that drives a net, where there is one.
    pub(crate) fn driver(&self, model: &VModule, net: VNet) -> Option<usize>
        requires { AreDrivers model.now.instances self.now }
        ensures { result ≡ driver model.now.instances net }
    {
        match self.known(net) {
            Some(place) => place,
            None => first_driver(model.instances.as_slice(), net),
        }
    }

    /// What is known of the driver of a net, where it is a port or a wire of the module.
    fn known(&self, net: VNet) -> Option<Option<usize>>
        ensures { result ≡ known_driver self.now net }
    {
        match net {
            VNet::Port(port) => place_at(self.ports.as_slice(), port),
            VNet::Wire(wire) => place_at(self.wires.as_slice(), wire),
            VNet::Notifier => None,
        }
    }

    /// Notes that the instance at this place drives a net, before any that was noted.
    fn note(&mut self, net: VNet, place: usize)
        ensures { (n : VNet) (later : Option ℕ) → IsKnown self.old n later
            → IsKnown self.new n (cond (same_net net n) (Some place) later) }
    {
        match net {
            VNet::Port(port) => put(&mut self.ports, port, Some(place)),
            VNet::Wire(wire) => put(&mut self.wires, wire, Some(place)),
            VNet::Notifier => {}
        }
    }
}

/// No drivers of so many nets.
fn no_drivers(alloc: Global, count: usize) -> Result<Items<Option<usize>>, AllocError>
    ensures { IfOk result (λ places. places ≡ replicate count None) }
{
    let places = vec![in alloc; None; count]?;
    Ok(Items::from_vec(places))
}

/// The entry with this number.
fn place_at(places: &[Option<usize>], number: usize) -> Option<Option<usize>>
    ensures { result ≡ slice_get places.now number }
{
    match at(places, number) {
        Some(place) => Some(*place),
        None => None,
    }
}

/// The place of the first instance that drives a net, where there is one. No net of a sound module is looked for so.
fn first_driver(instances: &[Instance], net: VNet) -> Option<usize>
    ensures { result ≡ driver instances.now net }
{
    instances
        .iter()
        .position(|instance| instance.net_driven().is_same(net))
}
