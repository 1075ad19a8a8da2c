//! The instance of a core.
ghost use Rattle.driver_texts.specs.CoreTerminals.{terminal_by, next_terminal_text, terminals_text, core_line_text};

use crate::numbered_names::ListedNames;
use crate::numbered_ports::{EachPort, PortAt, PortText};
use driver_models::DriverModel;
use text_io::{Bytes, Decimal, Desk, Line, OutSlot, Part, Put, parts};

/// What stands at the core for a port of this name: of a driven output the wire of this word with its number.
#[derive(Drop)]
struct Terminal<'a> {
    value: &'a [u8],
    name: &'a [u8],
    number: Option<usize>,
}

impl Part for Terminal<'_> {
    ghost text = { λ t. terminal_by t.value.now t.name.now t.number };

    fn put<D: Desk>(&self, line: &mut Line, desk: &mut D, slot: OutSlot) -> Put {
        match self.number {
            None => line.put(desk, slot, self.name),
            Some(number) => {
                parts!(Bytes(self.value), Decimal(number as u128)).put(line, desk, slot)
            }
        }
    }
}

/// Terminals before others, where wires to buffers' inputs begin with this word.
#[derive(Drop)]
struct NextTerminals<'a>(&'a [u8]);

impl PortText for NextTerminals<'_> {
    ghost text = { λ t at. next_terminal_text t.0.now at };

    fn put<D: Desk>(&self, at: &PortAt, line: &mut Line, desk: &mut D, slot: OutSlot) -> Put {
        let terminal = Terminal {
            value: self.0,
            name: at.port.name.as_slice(),
            number: at.number,
        };
        parts!(terminal, Bytes(b", ")).put(line, desk, slot)
    }
}

/// The terminals of a driver's core: what stands for each port, then the enables, where wires to buffers' inputs and to their
/// enables begin with these words.
#[derive(Drop)]
struct CoreTerminals<'a> {
    value: &'a [u8],
    enable: &'a [u8],
    model: &'a DriverModel,
}

impl Part for CoreTerminals<'_> {
    ghost text = { λ t. terminals_text t.value.now t.enable.now t.model.now };

    fn put<D: Desk>(&self, line: &mut Line, desk: &mut D, slot: OutSlot) -> Put {
        let drives = self.model.driver.drives.as_slice();
        let ports = EachPort {
            texts: NextTerminals(self.value),
            drives,
            ports: self.model.ports.as_slice(),
        };
        let enables = ListedNames {
            word: self.enable,
            count: drives.len(),
        };
        parts!(ports, enables).put(line, desk, slot)
    }
}

/// The line of the instance of a driver's core: what stands before the core's name, its name, what stands behind it, its
/// terminals, and the end. Wires to buffers' inputs and to their enables begin with these words.
#[derive(Drop)]
pub struct CoreLine<'a> {
    pub before: &'a [u8],
    pub behind: &'a [u8],
    pub value: &'a [u8],
    pub enable: &'a [u8],
    pub model: &'a DriverModel,
}

impl Part for CoreLine<'_> {
    ghost text = { λ c. core_line_text c.before.now c.behind.now c.value.now c.enable.now c.model.now };

    fn put<D: Desk>(&self, line: &mut Line, desk: &mut D, slot: OutSlot) -> Put {
        let terminals = CoreTerminals {
            value: self.value,
            enable: self.enable,
            model: self.model,
        };
        parts!(
            Bytes(self.before),
            Bytes(self.model.core.as_slice()),
            Bytes(self.behind),
            terminals,
            Bytes(b");\n")
        )
        .put(line, desk, slot)
    }
}
