//! The instances that the inputs of a module, the register of its checks and its states feed.
ghost use Rattle.std.specs.Prelude.{◌≡◌, ◌<◌, IfOk};
ghost use Rattle.specify_blocks.specs.declared.model.VNet.TheVariants as net;
ghost use Rattle.run_parts.specs.Places.{places_from};
ghost use Rattle.module_runs.specs.FedInstances.{nets_of, input_of, feeds, is_fed_by};
ghost use Rattle.module_runs.specs.FedLists.{AreFed};

use run_parts::{FedPart, Ports, fed_by_inputs, input_number};
use specify_blocks::{Instance, VNet};
use sqlite_items::Items;
use std::alloc::{AllocError, Global};
use udp_tables::is_input_port;

/// The places of the instances that each input of a module feeds, of those that the register of its checks feeds, and of those
/// that states may feed, in order.
#[derive(Drop)]
pub struct FedInstances {
    /// For each input those that it feeds.
    pub by_input: Items<Items<usize>>,
    /// Those that the register feeds.
    pub by_register: Items<usize>,
    /// Those that states may feed: a wire feeds them.
    pub by_states: Items<usize>,
}

impl FedInstances {
    /// The places of the instances that changes feed. `AllocError` comes only where memory is wanted and not there.
    pub(crate) fn of(
        alloc: Global,
        ports: &Ports,
        instances: &[Instance],
    ) -> Result<FedInstances, AllocError>
        ensures { IfOk result (λ fed. AreFed ports.now.list.now instances.now fed) }
    {
        let by_input = fed_by_inputs::<Instances>(alloc, ports, instances)?;
        let by_register = places_fed(alloc, Feeder::Register, instances)?;
        let by_states = places_fed(alloc, Feeder::States, instances)?;
        Ok(FedInstances {
            by_input,
            by_register,
            by_states,
        })
    }
}

/// The nets that feed an instance.
fn nets_of(instance: &Instance) -> &[VNet]
    ensures { result.now ≡ nets_of instance.now }
{
    match instance {
        Instance::Primitive { inputs, .. } => inputs.as_slice(),
        Instance::Constant { .. } => &[],
    }
}

/// The instances of a module, each of which reads the nets that feed it.
struct Instances;

impl FedPart for Instances {
    ghost use Rattle.module_runs.specs.FedInstances.{nets_of, input_of};

    type Part = Instance;

    type Net = VNet;

    ghost nets = { nets_of };

    ghost input = { input_of };

    fn nets(part: &Instance) -> &[VNet] {
        nets_of(part)
    }

    fn input(ports: &Ports, net: VNet) -> Option<usize> {
        match net {
            VNet::Port(port) => input_of_port(ports, port),
            VNet::Wire(_) => None,
            VNet::Notifier => None,
        }
    }
}

/// The number of the input that a port is, where it is one.
fn input_of_port(ports: &Ports, port: usize) -> Option<usize>
    ensures { result ≡ input_of ports.now.list.now (net.Port port) }
{
    if is_input_port(ports.list, port) {
        Some(input_number(ports, port))
    } else {
        None
    }
}

/// What may feed an instance beside the inputs.
#[derive(Clone, Copy)]
pub enum Feeder {
    /// The register of the checks.
    Register,
    /// A state: a wire feeds it.
    States,
}

/// Whether this is what a net brings to an instance.
fn feeds(feeder: Feeder, net: VNet) -> bool
    ensures { result ≡ feeds feeder net }
{
    match feeder {
        Feeder::Register => match net {
            VNet::Port(_) => false,
            VNet::Wire(_) => false,
            VNet::Notifier => true,
        },
        Feeder::States => match net {
            VNet::Port(_) => false,
            VNet::Wire(_) => true,
            VNet::Notifier => false,
        },
    }
}

/// Whether an instance is fed so.
fn is_fed_by(feeder: Feeder, instance: &Instance) -> bool
    ensures { result ≡ is_fed_by feeder instance.now }
{
    nets_of(instance).iter().any(|net| feeds(feeder, *net))
}

/// The places of the instances that are fed so.
fn places_fed(
    alloc: Global,
    feeder: Feeder,
    instances: &[Instance],
) -> Result<Items<usize>, AllocError>
    ensures { IfOk result (λ places. places ≡ places_from (is_fed_by feeder) 0 instances.now) }
{
    let mut places = Items::new(alloc);
    for i in 0..instances.len() {
        let is_fed = is_fed_by(feeder, &instances[i]);
        if is_fed {
            places.push(i)?;
        }
    }
    Ok(places)
}
