//! The lines of paths in a specify block.
ghost use Rattle.verilog_writer.specs.Timing.{gate_text, path_line, path_text};

use crate::nets::{InModule, port_at, wire_at};
use specify_blocks::{Gate, VModule, VPath};
use text_io::{Bytes, Decimal, Desk, ItemText, Line, OutSlot, Part, Put, parts};

/// What stands before a path.
#[derive(Drop)]
struct PathGate<'a>(&'a VModule, Gate);

impl Part for PathGate<'_> {
    ghost text = { λ m. gate_text m.0.now m.1 };

    #[tactic(auto, unfolding(crate::specs::Timing::gate_text))]
    fn put<D: Desk>(&self, line: &mut Line, desk: &mut D, slot: OutSlot) -> Put {
        match self.1 {
            Gate::Always => line.put(desk, slot, b"    "),
            Gate::If(wire) => {
                let wire = wire_at(self.0, wire);
                line.put_pieces(desk, slot, &[b"    if (", wire, b") "])
            }
            Gate::IfNone => line.put(desk, slot, b"    ifnone "),
        }
    }
}

/// A path between ports of these names, behind what stands before it: the rest of its line.
#[derive(Drop)]
pub struct PathDelays<'a> {
    /// The name of the input where it starts.
    pub from: &'a [u8],
    /// The name of the output where it ends.
    pub to: &'a [u8],
    /// The delay of a rise of the output, in picoseconds.
    pub rise: u64,
    /// The delay of a fall, in picoseconds.
    pub fall: u64,
}

impl Part for PathDelays<'_> {
    ghost text = { λ p. path_line p.from.now p.to.now p.rise p.fall };

    fn put<D: Desk>(&self, line: &mut Line, desk: &mut D, slot: OutSlot) -> Put {
        parts!(
            Bytes(b"("),
            Bytes(self.from),
            Bytes(b" => "),
            Bytes(self.to),
            Bytes(b") = ("),
            Decimal(self.rise as u128),
            Bytes(b", "),
            Decimal(self.fall as u128),
            Bytes(b");\n")
        )
        .put(line, desk, slot)
    }
}

impl ItemText<VPath> for InModule<'_> {
    ghost text = { λ m path. path_text m.0.now path };

    #[tactic(auto, unfolding(crate::specs::Timing::path_text, crate::specs::Timing::delays_text))]
    fn put<D: Desk>(&self, path: &VPath, line: &mut Line, desk: &mut D, slot: OutSlot) -> Put {
        let delays = PathDelays {
            from: port_at(self.0, path.from),
            to: port_at(self.0, path.to),
            rise: path.rise,
            fall: path.fall,
        };
        parts!(PathGate(self.0, path.gate), delays).put(line, desk, slot)
    }
}
