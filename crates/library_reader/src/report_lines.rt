//! What became of the cells of a library.
ghost use Rattle.text_io.specs.declared.slots.OutSlot.TheVariants.{Report};
ghost use Rattle.text_io.specs.Desk.{HasCause, WritesText};
ghost use Rattle.library_reader.specs.ReportLines.{cell_text, accepted_line, refused_line, totals_line};

use crate::cell_lines::{PrintedName, RefusalLine};
use cell_reader::Refusal;
use text_io::{Bytes, Decimal, Desk, Failed, Line, OutSlot, Part, Put, parts, write_part};

/// The front of a line on a cell: its number, and its name.
#[derive(Drop)]
struct Front<'a>(usize, &'a [u8]);

impl Part for Front<'_> {
    ghost text = { λ f. cell_text f.0 f.1.now };

    #[tactic(auto, unfolding(crate::specs::ReportLines::cell_text))]
    fn put<D: Desk>(&self, line: &mut Line, desk: &mut D, slot: OutSlot) -> Put {
        let name = PrintedName(self.1);
        parts!(Bytes(b"cell "), Decimal(self.0 as u128), Bytes(b" "), name).put(line, desk, slot)
    }
}

/// Reports a cell that is accepted: its number, from 1 among all cells of the library, and its name. After `Failed`,
/// which comes only where a write failed, a prefix of the line was appended.
#[tactic(auto, unfolding(crate::specs::ReportLines::accepted_line))]
pub fn write_accepted_cell<D: Desk>(desk: &mut D, number: usize, name: &[u8]) -> Result<(), Failed>
    ensures text { WritesText (D.state desk.old) (D.state desk.new) Report (accepted_line number name.now) result }
    ensures cause { HasCause (D.faults desk.old) (D.faults desk.new) result }
{
    let line = parts!(Front(number, name), Bytes(b" ok\n"));
    write_part(desk, OutSlot::Report, &line)
}

/// Reports a cell that is refused: its number, its name, which is `?` where no cell may bear it, and the reason with the
/// offset, from 0, of the statement or group that meets it. After `Failed`, which comes only where a write failed, a
/// prefix of the line was appended.
#[tactic(auto, unfolding(crate::specs::ReportLines::refused_line))]
pub fn write_refused_cell<D: Desk>(
    desk: &mut D,
    number: usize,
    name: &[u8],
    refusal: &Refusal,
) -> Result<(), Failed>
    ensures text { WritesText (D.state desk.old) (D.state desk.new) Report (refused_line number name.now refusal.now) result }
    ensures cause { HasCause (D.faults desk.old) (D.faults desk.new) result }
{
    let line = parts!(Front(number, name), RefusalLine(refusal));
    write_part(desk, OutSlot::Report, &line)
}

/// Reports how many cells of a library that was read to its end are accepted and refused. After `Failed`, which comes
/// only where a write failed, a prefix of the line was appended.
#[tactic(auto, unfolding(crate::specs::ReportLines::totals_line))]
pub fn write_totals<D: Desk>(desk: &mut D, accepted: usize, refused: usize) -> Result<(), Failed>
    ensures text { WritesText (D.state desk.old) (D.state desk.new) Report (totals_line accepted refused) result }
    ensures cause { HasCause (D.faults desk.old) (D.faults desk.new) result }
{
    let refused = parts!(Bytes(b" refused "), Decimal(refused as u128), Bytes(b"\n"));
    let line = parts!(Bytes(b"accepted "), Decimal(accepted as u128), refused);
    write_part(desk, OutSlot::Report, &line)
}
