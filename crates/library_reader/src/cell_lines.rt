//! How a line tells a cell of a library: its name, and why it is refused.
ghost use Rattle.library_reader.specs.CellLines.{printed_name, refusal_line};

use cell_attributes::declarations::is_name;
use cell_reader::Refusal;
use run_outcome::RefusalText;
use text_io::{Desk, Line, OutSlot, Part, Put};

/// The name of a cell as a line shows it: `?` where no cell may bear it.
#[derive(Drop)]
pub struct PrintedName<'a>(pub &'a [u8]);

impl Part for PrintedName<'_> {
    ghost text = { λ n. printed_name n.0.now };

    #[tactic(auto, unfolding(crate::specs::CellLines::printed_name))]
    fn put<D: Desk>(&self, line: &mut Line, desk: &mut D, slot: OutSlot) -> Put {
        let name: &[u8] = if is_name(self.0) { self.0 } else { b"?" };
        line.put(desk, slot, name)
    }
}

/// The end of a line on a cell that is refused for this: the reason, with the offset, from 0, of the statement or group that
/// meets it.
#[derive(Drop)]
pub struct RefusalLine<'a>(pub &'a Refusal);

impl Part for RefusalLine<'_> {
    ghost text = { λ r. refusal_line r.0.now };

    fn put<D: Desk>(&self, line: &mut Line, desk: &mut D, slot: OutSlot) -> Put {
        let reason = self.0.reason;
        RefusalText {
            number: reason.number(),
            word: reason.word(),
            at: self.0.at,
        }
        .put(line, desk, slot)
    }
}
