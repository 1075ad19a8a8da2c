//! The ports of a module's header.

ghost use Rattle.std.specs.Prelude.{◌≡◌, ◌<◌, ◌++◌, length, IfSome};
ghost use Rattle.std.specs.Str.{bytes_eq};
ghost use Rattle.udp_tables.specs.VerilogRules.{is_among, place_from};
ghost use Rattle.verilog_grammar.specs.VerilogModules.{port_names, output_place};

use grammar_reader::{Language, is_among};
use sqlite_items::Items;
use udp_tables::VPort;
use verilog_udp_reader::Verilog;

/// Whether a name is one of a port.
fn has_port(ports: &[VPort], name: &[u8]) -> bool
    ensures { result ≡ is_among (port_names ports.now) name.now }
{
    for port in ports {
        if Verilog::is_same(name, port.name.as_slice()) {
            return true;
        }
    }
    false
}

/// Whether a name is one of a port or of a wire.
#[tactic(auto, using(crate::proofs::Among::appended))]
pub fn is_declared(ports: &[VPort], wires: &[Items<u8>], name: &[u8]) -> bool
    ensures { result ≡ is_among (port_names ports.now ++ wires.now) name.now }
{
    has_port(ports, name) || is_among::<Verilog>(wires, name)
}

/// The first place, from this one on, of a port of this name.
pub fn port_place(ports: &[VPort], from: usize, name: &[u8]) -> Option<usize>
    ensures value { result ≡ place_from (λ (port : VPort). bytes_eq name.now port.name) from ports.now }
    ensures within { IfSome result (λ place. place < length ports.now) }
{
    for at in from..ports.len() {
        if Verilog::is_same(name, ports[at].name.as_slice()) {
            return Some(at);
        }
    }
    None
}

/// The first place, from this one on, of a port that is no input.
pub fn output_place(ports: &[VPort], from: usize) -> Option<usize>
    ensures { result ≡ output_place ports.now from }
{
    for at in from..ports.len() {
        if !ports[at].input {
            return Some(at);
        }
    }
    None
}
