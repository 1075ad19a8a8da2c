//! The report of a run on the test cells.
ghost use Rattle.std.specs.Prelude.{◌≤◌};
ghost use Rattle.text_io.specs.declared.slots.OutSlot.TheVariants.{Report};
ghost use Rattle.text_io.specs.Desk.{HasCause, WritesText};
ghost use Rattle.selftest_runs.specs.Report.{report_text};

use crate::counts::Counts;
use selftest_cells::CHANGES_EACH;
use text_io::{Bytes, Decimal, Desk, Failed, OutSlot, parts, write_part};

/// Appends to the report the five lines of a run on so many cells, of which this was counted. After `Failed`, which comes only
/// where a write failed, a prefix of them was appended. It takes no memory.
#[tactic(auto, unfolding(crate::specs::Report::report_text))]
pub fn write_report<D: Desk>(desk: &mut D, cells: u64, counts: &Counts) -> Result<(), Failed>
    requires { cells ≤ 10000 }
    ensures text { WritesText (D.state desk.old) (D.state desk.new) Report (report_text cells counts.now) result }
    ensures cause { HasCause (D.faults desk.old) (D.faults desk.new) result }
{
    let vital = parts!(
        Bytes(b" "),
        Decimal(counts.vital as u128),
        Bytes(b"\nequal\n")
    );
    let caught = parts!(Bytes(b"\ncaught "), Decimal(counts.verilog as u128), vital);
    let known = parts!(Bytes(b"\nknown "), Decimal(counts.known as u128), caught);
    let changes = Decimal((CHANGES_EACH * cells) as u128);
    let lines = parts!(Decimal(cells as u128), Bytes(b"\nchanges "), changes, known);
    write_part(desk, OutSlot::Report, &parts!(Bytes(b"cells "), lines))
}
