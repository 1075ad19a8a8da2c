//! The nets of a module, looked for one after another. (IEEE 1364-2005, clauses 8 and 12.)

ghost use Rattle.std.specs.Prelude.{◌≡◌};
ghost use Rattle.std.specs.List.{list_any};
ghost use Rattle.verilog_grammar.specs.specify_blocks.Nets as spec;
ghost use Rattle.verilog_grammar.specs.VerilogModules.{is_driven_already};
ghost use Rattle.verilog_reader.specs.DrivenNets.{drives_wire};

use udp_tables::{Udp, VPort};
use verilog_grammar::modules::{Instance, VModule, VNet};

/// How many nets of a kind are looked for one after another.
pub const FEW: usize = 16;

/// Whether this is the number of an output.
pub fn is_output_port(ports: &[VPort], port: usize) -> bool
    ensures { result ≡ spec.is_output_port ports.now port }
{
    match ports.get(port) {
        Some(port) => !port.input,
        None => false,
    }
}

/// Whether this is the number of a primitive with a state.
pub fn is_sequential(udps: &[Udp], udp: usize) -> bool
    ensures { result ≡ spec.is_sequential udps.now udp }
{
    match udps.get(udp) {
        Some(udp) => udp.sequential,
        None => false,
    }
}

/// Whether an instance is one of a primitive with a state.
pub fn has_state(udps: &[Udp], instance: &Instance) -> bool
    ensures { result ≡ spec.has_state udps.now instance.now }
{
    match instance {
        Instance::Primitive { udp, .. } => is_sequential(udps, *udp),
        Instance::Constant { .. } => false,
    }
}

/// Whether an instance is one with a state, or one without, and drives this wire.
fn drives_wire(udps: &[Udp], instance: &Instance, stateful: bool, wire: usize) -> bool
    ensures { result ≡ drives_wire stateful udps.now wire instance.now }
{
    let has_state = has_state(udps, instance);
    let is_kind = if stateful { has_state } else { !has_state };
    is_kind && instance.net_driven().is_same(VNet::Wire(wire))
}

/// Whether an instance with a state, or one without, drives this wire.
pub fn is_wire_driven_by(model: &VModule, stateful: bool, wire: usize) -> bool
    ensures { result ≡ list_any (drives_wire stateful model.now.udps wire) model.now.instances }
{
    for instance in model.instances.as_slice() {
        if drives_wire(model.udps.as_slice(), instance, stateful, wire) {
            return true;
        }
    }
    false
}

/// Whether an instance drives the net.
pub fn is_driven_already(model: &VModule, net: VNet) -> bool
    ensures { result ≡ is_driven_already model.now net }
{
    for instance in model.instances.as_slice() {
        if instance.net_driven().is_same(net) {
            return true;
        }
    }
    false
}
