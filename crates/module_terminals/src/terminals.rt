//! Which nets and instances of a module stand for the parts of a cell.
ghost use Rattle.std.specs.Prelude.{◌≡◌, ◌+◌, ◌<◌, ◌≤◌, ◌++◌, map, length, option_map, slice_get};
ghost use Rattle.std.specs.List.{list_all};
ghost use Rattle.cell_machine.specs.CellData.{data_of};
ghost use Rattle.specify_blocks.specs.{Nets.has_state, Nets.is_sequential, Generated.pin_net};
ghost use Rattle.module_terminals.specs.Terminals.{sequential_instances, driving, is_among, same_nets, group_nets, state_net};
ghost use Rattle.module_terminals.specs.Terminals.{source_net, output_nets, nets_feeding, stands_for, drives_value};
ghost use Rattle.module_terminals.specs.Feeding.{output_net};

use cell_machine::{Cell, Few, Pin, Source};
use cell_tables::has_notifier;
use specify_blocks::{Instance, VModule, VNet, pin_net};

/// Whether this is the number of a primitive with a state.
fn is_sequential(model: &VModule, udp: usize) -> bool
    ensures { result ≡ is_sequential model.now.udps udp }
{
    match model.udps.as_slice().get(udp) {
        Some(udp) => udp.sequential,
        None => false,
    }
}

/// Whether an instance is one of a primitive with a state.
fn has_state(model: &VModule, instance: &Instance) -> bool
    ensures { result ≡ has_state model.now.udps instance.now }
{
    match instance {
        Instance::Primitive { udp, .. } => is_sequential(model, *udp),
        Instance::Constant { .. } => false,
    }
}

/// How many instances of primitives with a state there are.
pub fn state_count(model: &VModule) -> usize
    ensures { result ≡ length (sequential_instances model.now) }
{
    let instances = model.instances.as_slice();
    instances
        .iter()
        .filter(|instance| has_state(model, instance))
        .count()
}

/// The instance of a primitive with a state that has this number, from 0, among them.
pub fn sequential_instance<'a>(model: &'a VModule, number: usize) -> Option<&'a Instance>
    ensures { option_map (λ i. i.now) result ≡ slice_get (sequential_instances model.now) number }
{
    let mut left = number;
    for instance in model.instances.as_slice() {
        if has_state(model, instance) {
            if left == 0 {
                return Some(instance);
            }
            left -= 1;
        }
    }
    None
}

/// The instance that drives a net, where there is one.
pub fn driving<'a>(model: &'a VModule, net: VNet) -> Option<&'a Instance>
    ensures { option_map (λ i. i.now) result ≡ driving model.now net }
{
    for instance in model.instances.as_slice() {
        if instance.net_driven().is_same(net) {
            return Some(instance);
        }
    }
    None
}

/// Whether a net is one of these.
fn is_among(nets: &[VNet], net: VNet) -> bool
    ensures { result ≡ is_among nets.now net }
{
    nets.iter().any(|other| net.is_same(*other))
}

/// Whether each net is one of others.
fn are_among(nets: &[VNet], others: &[VNet]) -> bool
    ensures { result ≡ list_all (is_among others.now) nets.now }
{
    nets.iter().all(|net| is_among(others, *net))
}

/// Whether two lists have the same nets, in any order.
pub fn same_nets(nets: &[VNet], others: &[VNet]) -> bool
    ensures { result ≡ same_nets nets.now others.now }
{
    nets.len() == others.len() && are_among(nets, others) && are_among(others, nets)
}

/// Adds the ports of pins.
fn add_pins(nets: &mut Few<VNet, 10>, pins: &[Pin], support: &[usize])
    requires { length nets.old + length support.now ≤ 10 }
    ensures { nets.new ≡ nets.old ++ map (pin_net pins.now) support.now }
{
    for pin in support {
        nets.push(pin_net(pins, *pin));
    }
}

/// The nets of a group: the ports of its pins, and behind them the register where the cell has checks.
pub fn group_nets(cell: &Cell, group: usize) -> Few<VNet, 10>
    requires { group < length cell.now.groups }
    ensures nets { result ≡ group_nets (data_of cell.now) group }
    ensures few { length result ≤ 9 }
{
    let mut nets = Few::new(VNet::Notifier);
    let support = cell.group(group).support.as_slice();
    add_pins(&mut nets, cell.pins.as_slice(), support);
    if has_notifier(cell) {
        nets.push(VNet::Notifier);
    }
    nets
}

/// The nets of a condition with these names: the ports of its pins.
pub fn pin_nets(pins: &[Pin], names: &[usize]) -> Few<VNet, 10>
    requires { length names.now ≤ 10 }
    ensures { result ≡ map (pin_net pins.now) names.now }
{
    let mut nets = Few::new(VNet::Notifier);
    add_pins(&mut nets, pins, names);
    nets
}

/// The wire that stands for the state of a group.
fn state_net(model: &VModule, group: usize) -> VNet
    ensures { result ≡ state_net model.now group }
{
    match sequential_instance(model, group) {
        Some(instance) => instance.net_driven(),
        None => VNet::Notifier,
    }
}

/// The net of a source.
fn source_net(cell: &Cell, model: &VModule, source: Source) -> VNet
    ensures { result ≡ source_net (data_of cell.now) model.now source }
{
    match source {
        Source::Pin(pin) => pin_net(cell.pins.as_slice(), pin),
        Source::State(group) => state_net(model, group),
    }
}

/// The nets of an output: the ports of its pins and the wires of its states.
pub fn output_nets(cell: &Cell, model: &VModule, output: usize) -> Few<VNet, 10>
    requires { output < length cell.now.outputs }
    ensures { result ≡ output_nets (data_of cell.now) model.now output }
{
    let mut nets = Few::new(VNet::Notifier);
    for source in cell.output_pin(output).support.as_slice() {
        nets.push(source_net(cell, model, *source));
    }
    nets
}

/// Whether an instance without a state stands for a value of these nets.
fn stands_for(model: &VModule, nets: &[VNet], instance: &Instance) -> bool
    ensures { result ≡ stands_for model.now nets.now instance.now }
{
    match instance {
        Instance::Primitive { udp, inputs, .. } => {
            !nets.is_empty() && !is_sequential(model, *udp) && same_nets(inputs.as_slice(), nets)
        }
        Instance::Constant { .. } => nets.is_empty(),
    }
}

/// The same of the instance that drives a net.
pub fn drives_value(model: &VModule, nets: &[VNet], net: VNet) -> bool
    ensures { result ≡ drives_value model.now nets.now net }
{
    match driving(model, net) {
        Some(instance) => stands_for(model, nets, instance),
        None => false,
    }
}

/// The port of an output.
pub fn output_net(cell: &Cell, output: usize) -> VNet
    requires { output < length cell.now.outputs }
    ensures { result ≡ output_net (data_of cell.now) output }
{
    pin_net(cell.pins.as_slice(), cell.output_pin(output).pin)
}

/// The nets that feed an instance.
pub fn nets_feeding(instance: &Instance) -> &[VNet]
    ensures { result.now ≡ nets_feeding instance.now }
{
    match instance {
        Instance::Primitive { inputs, .. } => inputs.as_slice(),
        Instance::Constant { .. } => &[],
    }
}
