//! A module whose parts are written, and their names by their numbers.
ghost use Rattle.std.specs.Prelude.{◌≡◌};
ghost use Rattle.verilog_writer.specs.Nets.{port_at, wire_at, primitive_at, name_or_none, notifier_in, net_at};

use specify_blocks::{VModule, VNet};

/// Items of a module, as they stand in lists and in lines of its text: an input of an instance by its name, an instance by its
/// call, a path by its ports and delays, a check by its events and limit.
#[derive(Drop)]
pub(crate) struct InModule<'a>(pub(crate) &'a VModule);

/// The name of a port, none where there is no such port.
pub(crate) fn port_at(model: &VModule, port: usize) -> &[u8]
    ensures { result.now ≡ port_at model.now port }
{
    match model.ports.get(port) {
        Some(port) => port.name.as_slice(),
        None => b"",
    }
}

/// The name of a wire, none where there is no such wire.
pub(crate) fn wire_at(model: &VModule, wire: usize) -> &[u8]
    ensures { result.now ≡ wire_at model.now wire }
{
    match model.wires.get(wire) {
        Some(name) => name.as_slice(),
        None => b"",
    }
}

/// The name of a primitive, none where there is no such primitive.
pub(crate) fn primitive_at(model: &VModule, udp: usize) -> &[u8]
    ensures { result.now ≡ primitive_at model.now udp }
{
    match model.udps.get(udp) {
        Some(udp) => udp.name.as_slice(),
        None => b"",
    }
}

/// The name of the register of the checks, none where there is no such register.
pub(crate) fn notifier_in(model: &VModule) -> &[u8]
    ensures { result.now ≡ notifier_in model.now }
{
    match &model.notifier {
        Some(name) => name.as_slice(),
        None => b"",
    }
}

/// The name of a net.
pub(crate) fn net_at(model: &VModule, net: VNet) -> &[u8]
    ensures { result.now ≡ net_at model.now net }
{
    match net {
        VNet::Port(port) => port_at(model, port),
        VNet::Wire(wire) => wire_at(model, wire),
        VNet::Notifier => notifier_in(model),
    }
}
