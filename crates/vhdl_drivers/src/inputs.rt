//! The inputs in the list of signals of a process.
ghost use Rattle.std.specs.List.{flat_map};
ghost use Rattle.vhdl_grammar.specs.VhdlDeclarations.{input_names};
ghost use Rattle.driver_texts.specs.NumberedNames.{next_name_text};
ghost use Rattle.vhdl_drivers.specs.DriverText.{next_input_text};

use text_io::{Bytes, Desk, Each, ItemText, Line, OutSlot, Part, Put, When, parts};
use udp_tables::VPort;

/// Inputs before other names.
#[derive(Drop)]
struct NextInput;

impl ItemText<VPort> for NextInput {
    ghost text = { λ _ port. next_input_text port };

    fn put<D: Desk>(&self, port: &VPort, line: &mut Line, desk: &mut D, slot: OutSlot) -> Put {
        let name = parts!(Bytes(port.name.as_slice()), Bytes(b", "));
        When(port.input, name).put(line, desk, slot)
    }
}

/// The inputs among these ports, each before another name.
#[derive(Drop)]
pub(crate) struct NextInputs<'a>(pub(crate) &'a [VPort]);

impl Part for NextInputs<'_> {
    ghost text = { λ n. flat_map next_name_text (input_names n.0.now) };

    #[tactic(auto, using(crate::proofs::ListedInputs::inputs_listed))]
    fn put<D: Desk>(&self, line: &mut Line, desk: &mut D, slot: OutSlot) -> Put {
        Each(NextInput, self.0).put(line, desk, slot)
    }
}
