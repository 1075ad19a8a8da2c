//! What the terminals of an instance may be. (IEEE 1364-2005, 8.6; the restrictions on places are this project's.)

ghost use Rattle.std.specs.Prelude.{◌≡◌};
ghost use Rattle.std.specs.List.{list_all};
ghost use Rattle.verilog_grammar.specs.VerilogModules as spec;

use crate::netlist::Netlist;
use crate::nets::is_output_port;
use udp_tables::{Udp, is_input_port};
use verilog_grammar::modules::VNet;

/// The net of a name: a port, a wire or the register.
#[inline(always)]
pub fn net_of(model: &Netlist, name: &[u8]) -> Option<VNet>
    ensures { result ≡ spec.net_of model.now name.now }
{
    if let Some(port) = model.port_of(name) {
        return Some(VNet::Port(port));
    }
    if let Some(wire) = model.wire_of(name) {
        return Some(VNet::Wire(wire));
    }
    match &model.module().notifier {
        Some(notifier) if name == notifier.as_slice() => Some(VNet::Notifier),
        _ => None,
    }
}

/// Whether an instance with a state, or one without, may drive a net.
pub fn may_drive(model: &Netlist, sequential: bool, net: VNet) -> bool
    ensures { result ≡ spec.may_drive model.now sequential net }
{
    match net {
        VNet::Port(port) => !sequential && is_output_port(model.module().ports.as_slice(), port),
        VNet::Wire(wire) => wire < model.module().wires.len(),
        VNet::Notifier => false,
    }
}

/// Whether a net may feed an instance with a state, or one without.
pub fn may_feed(model: &Netlist, sequential: bool, net: VNet) -> bool
    ensures { result ≡ spec.may_feed model.now sequential net }
{
    match net {
        VNet::Port(port) => is_input_port(model.module().ports.as_slice(), port),
        VNet::Wire(wire) => !sequential && model.is_state(wire),
        VNet::Notifier => sequential && model.module().notifier.is_some(),
    }
}

/// How many inputs the primitive with this number has.
pub fn input_count(udps: &[Udp], udp: usize) -> usize
    ensures { result ≡ spec.input_count udps.now udp }
{
    match udps.get(udp) {
        Some(udp) => udp.inputs.len(),
        None => 0,
    }
}

/// Whether each output is driven.
fn are_outputs_driven(model: &Netlist) -> bool
    ensures { result ≡ list_all (spec.is_driven_already model.now) (spec.output_nets 0 model.now.ports) }
{
    for (at, port) in model.module().ports.as_slice().iter().enumerate() {
        if !port.input && !model.is_driven(VNet::Port(at)) {
            return false;
        }
    }
    true
}

/// Whether each wire is driven.
fn are_wires_driven(model: &Netlist) -> bool
    ensures { result ≡ list_all (spec.is_driven_already model.now) (spec.wire_nets 0 model.now.wires) }
{
    for (wire, _name) in model.module().wires.as_slice().iter().enumerate() {
        if !model.is_driven(VNet::Wire(wire)) {
            return false;
        }
    }
    true
}

/// Whether each output and each wire is driven.
#[tactic(auto, using(crate::proofs::Among::all_appended))]
pub fn are_all_driven(model: &Netlist) -> bool
    ensures { result ≡ spec.are_all_driven model.now }
{
    are_outputs_driven(model) && are_wires_driven(model)
}
