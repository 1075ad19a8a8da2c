//! The ports of a driver, with the numbers of the driven ones.
ghost use Rattle.std.specs.Prelude.{◌≡◌, ◌<◌, ◌≤◌, ◌+◌, IsTrue};
ghost use Rattle.std.specs.List.{flat_map};
ghost use Rattle.text_io.specs.declared.slots.Slot.TheVariants.{Output};
ghost use Rattle.text_io.specs.Desk.{is_bound, HasCause};
ghost use Rattle.text_io.specs.Line.{PutsText};
ghost use Rattle.driver_texts.specs.NumberedPorts.{is_driven_place, port_number, outputs_with, driven_with, numbered_ports};

use text_io::{Desk, Line, OutSlot, Part, Put};
use udp_tables::VPort;

/// What stands before a port: how many outputs, and how many driven ones.
#[derive(Clone, Copy)]
pub struct Counts {
    pub outputs: usize,
    pub driven: usize,
}

/// Whether the driven output with a number, from 0, is the output with a place.
fn is_driven_place(drives: &[usize], number: usize, place: usize) -> bool
    ensures { result ≡ is_driven_place drives.now number place }
{
    match drives.get(number) {
        Some(driven) => place == *driven,
        None => false,
    }
}

/// The number of a port behind others, from 1, among the driven outputs, where it is one of them.
pub fn port_number(drives: &[usize], before: Counts, port: &VPort) -> Option<usize>
    ensures { result ≡ port_number drives.now before.outputs before.driven port.now }
{
    if port.input || !is_driven_place(drives, before.driven, before.outputs) {
        return None;
    }
    Some(before.driven + 1)
}

/// What stands before a port and with it, which has this number among the driven outputs.
pub fn counts_with(before: Counts, port: &VPort, number: Option<usize>) -> Counts
    requires { before.outputs < 9223372036854775808 }
    ensures outputs { result.outputs ≡ outputs_with before.outputs port.now }
    ensures driven { result.driven ≡ driven_with before.driven number }
{
    let outputs = if port.input {
        before.outputs
    } else {
        before.outputs + 1
    };
    match number {
        Some(driven) => Counts { outputs, driven },
        None => Counts {
            outputs,
            driven: before.driven,
        },
    }
}

/// A port, with its number among the driven outputs, from 1, where it is one of them.
#[derive(Drop)]
pub struct PortAt<'a> {
    pub port: &'a VPort,
    pub number: Option<usize>,
}

/// What ports are as text, with their numbers among the driven outputs.
pub trait PortText {
    ghost use Rattle.std.specs.Prelude.{ℕ, List};
    ghost use Rattle.driver_texts.specs.NumberedPorts.{NumberedPort};

    ghost text: { Self → NumberedPort → List ℕ };

    /// Puts the text of a port with its number, as `Part::put` does.
    fn put<D: Desk>(&self, at: &PortAt, line: &mut Line, desk: &mut D, slot: OutSlot) -> Put
        requires { IsTrue (is_bound (D.state desk.old) (Output slot)) }
        ensures text { PutsText (D.state desk.old) (D.state desk.new) slot line.old
            (text self.now (record { port = at.now.port.now; number = at.now.number })) line.new result }
        ensures cause { HasCause (D.faults desk.old) (D.faults desk.new) result };
}

/// What each of these ports is as text, where these outputs are driven.
#[derive(Drop)]
pub struct EachPort<'a, M> {
    pub texts: M,
    pub drives: &'a [usize],
    pub ports: &'a [VPort],
}

impl<M: PortText> Part for EachPort<'_, M> {
    ghost text = { λ e. flat_map (M.text e.texts) (numbered_ports e.drives.now 0 0 e.ports.now) };

    fn put<D: Desk>(&self, line: &mut Line, desk: &mut D, slot: OutSlot) -> Put {
        let mut before = Counts {
            outputs: 0,
            driven: 0,
        };
        for port in self.ports {
            let number = port_number(self.drives, before, port);
            self.texts.put(&PortAt { port, number }, line, desk, slot)?;
            before = counts_with(before, port, number);
        }
        Ok(())
    }
}
