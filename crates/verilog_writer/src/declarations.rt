//! Ports and declarations of a module.
ghost use Rattle.std.specs.Prelude.{if◌then◌else◌};
ghost use Rattle.verilog_writer.specs.Model.{ports_text, input_port_text, output_port_text, register_text};

use crate::names::ListedNames;
use sqlite_items::Items;
use text_io::{Bytes, Desk, Each, ItemText, Line, OutSlot, Part, Put, parts};
use udp_tables::VPort;

/// The ports in the header.
#[derive(Drop)]
pub struct Ports<'a>(pub &'a [VPort]);

impl Part for Ports<'_> {
    ghost text = { λ m. ports_text m.0.now };

    fn put<D: Desk>(&self, line: &mut Line, desk: &mut D, slot: OutSlot) -> Put {
        match self.0.split_first() {
            Some((first, items)) => {
                let rest = Each(ListedNames(b", "), items);
                parts!(Bytes(first.name.as_slice()), rest).put(line, desk, slot)
            }
            None => line.put(desk, slot, b""),
        }
    }
}

/// The declarations of the inputs among ports, or else of the outputs.
#[derive(Drop)]
pub struct PortLines(pub bool);

impl ItemText<VPort> for PortLines {
    ghost text = { λ m port. if m.0 then input_port_text port else output_port_text port };

    #[tactic(auto, unfolding(crate::specs::Model::input_port_text, crate::specs::Model::output_port_text))]
    fn put<D: Desk>(&self, port: &VPort, line: &mut Line, desk: &mut D, slot: OutSlot) -> Put {
        let name = port.name.as_slice();
        match (self.0, port.input) {
            (true, true) => line.put_pieces(desk, slot, &[b"  input ", name, b";\n"]),
            (false, false) => line.put_pieces(desk, slot, &[b"  output ", name, b";\n"]),
            _ => line.put(desk, slot, b""),
        }
    }
}

/// The declaration of the register of the checks, where there is one.
#[derive(Drop)]
pub(crate) struct Register<'a>(pub(crate) &'a Option<Items<u8>>);

impl Part for Register<'_> {
    ghost text = { λ m. register_text m.0.now };

    fn put<D: Desk>(&self, line: &mut Line, desk: &mut D, slot: OutSlot) -> Put {
        match self.0 {
            Some(name) => line.put_pieces(desk, slot, &[b"  reg ", name.as_slice(), b";\n"]),
            None => line.put(desk, slot, b""),
        }
    }
}
