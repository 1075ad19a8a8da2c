//! An entity with its ports, and the beginning and the end of its process. (IEEE 1076-1993, 1.1, 1.2 and 9.2.)
ghost use Rattle.std.specs.Prelude.{◌≡◌};
ghost use Rattle.vhdl_writer.specs.Declarations.{direction_text, port_text, some_ports_text, header_text, is_input, first_input};
ghost use Rattle.vhdl_writer.specs.Declarations.{entity_header_text, signal_start, signal_text, signals_end, process_text};
ghost use Rattle.vhdl_writer.specs.Entity.{end_text};

use crate::names::apart;
use crate::parts::{At, Each, ItemText};
use text_io::{Bytes, Desk, Line, OutSlot, Part, Put, When, parts};
use udp_tables::VPort;
use vital_models::VEntity;

/// The direction of a port.
fn direction_text(port: &VPort) -> &'static [u8]
    ensures { result.now ≡ direction_text port.now }
{
    if port.input {
        b" : in std_ulogic"
    } else {
        b" : out std_ulogic"
    }
}

/// Ports in the list of ports.
#[derive(Drop)]
struct ListedPorts;

impl ItemText<VPort> for ListedPorts {
    ghost text = { λ _ n port. port_text n port };

    #[tactic(auto, unfolding(crate::specs::Declarations::port_text))]
    fn put<D: Desk>(&self, at: &At<VPort>, line: &mut Line, desk: &mut D, slot: OutSlot) -> Put {
        let name = Bytes(at.item.name.as_slice());
        let direction = Bytes(direction_text(at.item));
        parts!(Bytes(apart(b"; ", at.number)), name, direction).put(line, desk, slot)
    }
}

/// A list of ports, behind the name of an entity. (IEEE 1076-1993, 1.1.1.2.)
#[derive(Drop)]
pub struct PortList<'a>(pub &'a [VPort]);

impl Part for PortList<'_> {
    ghost text = { λ l. some_ports_text l.0.now };

    fn put<D: Desk>(&self, line: &mut Line, desk: &mut D, slot: OutSlot) -> Put {
        let listed = Each(ListedPorts, self.0);
        parts!(Bytes(b"  port ("), listed, Bytes(b");\n")).put(line, desk, slot)
    }
}

/// The header of an entity, and the line that begins its architecture. (IEEE 1076-1993, 1.1 and 1.2.)
#[derive(Drop)]
pub struct EntityHeader<'a, P> {
    /// The packages that the entity uses, and what stands before its name.
    pub packages: &'a [u8],
    /// The name of the entity.
    pub name: &'a [u8],
    /// The list of its ports.
    pub ports: P,
    /// The name of the architecture, between the end of the header and the name of the entity.
    pub architecture: &'a [u8],
}

impl<P: Part> Part for EntityHeader<'_, P> {
    ghost text = { λ h. entity_header_text h.packages.now h.name.now (P.text h.ports) h.architecture.now };

    fn put<D: Desk>(&self, line: &mut Line, desk: &mut D, slot: OutSlot) -> Put {
        let name = self.name;
        let line_end = Bytes(b" is\n");
        let body = parts!(
            Bytes(b"end "),
            Bytes(name),
            Bytes(self.architecture),
            Bytes(name),
            line_end
        );
        parts!(
            Bytes(self.packages),
            Bytes(name),
            Bytes(b" is\n"),
            &self.ports,
            body
        )
        .put(line, desk, slot)
    }
}

/// The packages that an entity uses, and its header, with a list of ports where there are ports.
#[derive(Drop)]
pub(crate) struct Header<'a>(pub(crate) &'a VEntity);

impl Part for Header<'_> {
    ghost text = { λ m. header_text m.0.now };

    fn put<D: Desk>(&self, line: &mut Line, desk: &mut D, slot: OutSlot) -> Put {
        let ports = self.0.ports.as_slice();
        EntityHeader {
            packages: b"library IEEE;\nuse IEEE.std_logic_1164.all;\nuse IEEE.VITAL_Timing.all;\nuse IEEE.VITAL_Primitives.all;\nentity ",
            name: self.0.name.as_slice(),
            ports: When(ports.len() > 0, PortList(ports)),
            architecture: b";\narchitecture vital of ",
        }
        .put(line, desk, slot)
    }
}

/// Whether a port is an input.
fn is_input(port: &VPort) -> bool
    ensures { result ≡ is_input port.now }
{
    port.input
}

/// Where, from 0, the first input stands, if there is one.
pub(crate) fn first_input(ports: &[VPort]) -> Option<usize>
    ensures { result ≡ first_input ports.now }
{
    ports.iter().position(is_input)
}

/// What stands before the input with this number, from 1, in the list of signals.
fn signal_start(first: Option<usize>, number: usize) -> &'static [u8]
    ensures { result.now ≡ signal_start first number }
{
    match first {
        Some(place) if place as u128 + 1 == number as u128 => b" (",
        _ => b", ",
    }
}

/// Inputs among ports, in the list of signals, where the first one stands at this place.
#[derive(Drop)]
struct Signals(Option<usize>);

impl ItemText<VPort> for Signals {
    ghost text = { λ m n port. signal_text m.0 n port };

    #[tactic(auto, unfolding(crate::specs::Declarations::signal_text))]
    fn put<D: Desk>(&self, at: &At<VPort>, line: &mut Line, desk: &mut D, slot: OutSlot) -> Put {
        let start = Bytes(signal_start(self.0, at.number));
        let signal = (start, Bytes(at.item.name.as_slice()));
        When(at.item.input, signal).put(line, desk, slot)
    }
}

/// The end of the list of signals, where there is one.
fn signals_end(first: Option<usize>) -> &'static [u8]
    ensures { result.now ≡ signals_end first }
{
    if first.is_some() { b")\n" } else { b"\n" }
}

/// The beginning of the process, with the signals to which it responds.
#[derive(Drop)]
pub(crate) struct Process<'a>(pub(crate) &'a VEntity);

impl Part for Process<'_> {
    ghost text = { λ m. process_text m.0.now };

    #[tactic(auto, unfolding(crate::specs::Declarations::process_text))]
    fn put<D: Desk>(&self, line: &mut Line, desk: &mut D, slot: OutSlot) -> Put {
        let items = self.0.ports.as_slice();
        let first = first_input(items);
        let signals = Each(Signals(first), items);
        let end = Bytes(signals_end(first));
        parts!(Bytes(b"begin\n  process"), signals, end).put(line, desk, slot)
    }
}

/// The end of the process and of the architecture. A process that responds to no signal waits.
pub(crate) fn end_text(entity: &VEntity) -> &'static [u8]
    ensures { result.now ≡ end_text (first_input entity.now.ports) }
{
    if first_input(entity.ports.as_slice()).is_some() {
        b"  end process;\nend vital;\n"
    } else {
        b"    wait;\n  end process;\nend vital;\n"
    }
}
