//! The rows of a primitive's table.
ghost use Rattle.verilog_writer.specs.Primitive.{row_text, spaced_text, outcome_text};

use crate::symbols::{level_symbol, next_symbol};
use text_io::{Bytes, Desk, Each, ItemText, Line, OutSlot, Part, Put, parts};
use udp_tables::{Entry, UdpRow};

/// Entries, each with a space after it.
#[derive(Drop)]
struct Entries;

impl ItemText<Entry> for Entries {
    ghost text = { λ _ entry. spaced_text entry };

    #[tactic(auto, unfolding(crate::specs::Primitive::spaced_text))]
    fn put<D: Desk>(&self, entry: &Entry, line: &mut Line, desk: &mut D, slot: OutSlot) -> Put {
        match *entry {
            Entry::Level(level) => line.put(desk, slot, &[level_symbol(level), b' ']),
            Entry::Pair(before, after) => {
                let (before, after) = (level_symbol(before), level_symbol(after));
                line.put(desk, slot, &[b'(', before, after, b')', b' '])
            }
            Entry::R => line.put(desk, slot, b"r "),
            Entry::F => line.put(desk, slot, b"f "),
            Entry::P => line.put(desk, slot, b"p "),
            Entry::N => line.put(desk, slot, b"n "),
            Entry::Star => line.put(desk, slot, b"* "),
        }
    }
}

/// What stands after the entries of a row.
#[derive(Drop)]
struct Outcome<'a>(bool, &'a UdpRow);

impl Part for Outcome<'_> {
    ghost text = { λ m. outcome_text m.0 m.1.now };

    #[tactic(auto, unfolding(crate::specs::Primitive::outcome_text))]
    fn put<D: Desk>(&self, line: &mut Line, desk: &mut D, slot: OutSlot) -> Put {
        let state = level_symbol(self.1.state);
        let next = next_symbol(self.1.next);
        if self.0 {
            line.put_pieces(desk, slot, &[b": ", &[state], b" : ", &[next], b";\n"])
        } else {
            line.put_pieces(desk, slot, &[b": ", &[next], b";\n"])
        }
    }
}

/// Lines of rows, of a primitive with a state or of one without.
#[derive(Drop)]
pub(crate) struct Rows(pub(crate) bool);

impl ItemText<UdpRow> for Rows {
    ghost text = { λ m row. row_text m.0 row };

    #[tactic(auto, unfolding(crate::specs::Primitive::row_text))]
    fn put<D: Desk>(&self, row: &UdpRow, line: &mut Line, desk: &mut D, slot: OutSlot) -> Put {
        let entries = Each(Entries, row.inputs.as_slice());
        parts!(Bytes(b"    "), entries, Outcome(self.0, row)).put(line, desk, slot)
    }
}
