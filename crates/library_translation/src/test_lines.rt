//! The line on the test cell of a cell.
ghost use Rattle.std.specs.Prelude.{◌≡◌, IfOk};
ghost use Rattle.text_io.specs.declared.slots.OutSlot.TheVariants.{Report};
ghost use Rattle.text_io.specs.Desk.{HasCause, StopsWithCause, WritesText};
ghost use Rattle.three_state_cells.specs.DrivenCells.{driven_data_of};
ghost use Rattle.run_outcome.specs.Written.{Writes, in_report};
ghost use Rattle.scan_cells.specs.TestLines.{digit as digit_of, agreement_text, test_line};
ghost use Rattle.library_translation.specs.Cells.{found_of_test, test_lines};

use crate::models::may_float;
use crate::stopped::stopped;
use liberty_groups::Group;
use scan_cells::{Agreement, agrees, functional_cell, test_of};
use std::alloc::{AllocError, Global};
use text_io::{Bytes, Decimal, Desk, Failed, Line, OutSlot, Part, Put, Stop, parts, write_part};
use three_state_cells::DrivenCell;

/// A state as a digit.
fn digit(state: bool) -> &'static [u8]
    ensures { result.now ≡ digit_of state }
{
    if state { b"1" } else { b"0" }
}

/// What a line says of a test cell: whether its view does what the cell does, and else where they differ first, or that it is
/// left out, since it gives no view.
#[derive(Drop)]
struct Words(Option<Agreement>);

impl Part for Words {
    ghost text = { λ w. agreement_text w.0 };

    #[tactic(auto, unfolding(scan_cells::specs::TestLines::difference_text))]
    fn put<D: Desk>(&self, line: &mut Line, desk: &mut D, slot: OutSlot) -> Put {
        match self.0 {
            None => line.put(desk, slot, b"left-out"),
            Some(Agreement::Same) => line.put(desk, slot, b"same"),
            Some(
                Agreement::Differs {
                    part,
                    before,
                    after,
                    state,
                    ..
                },
            ) => {
                let state = parts!(Bytes(b" state "), Bytes(digit(state)));
                let after = parts!(Bytes(b" after "), Decimal(after as u128), state);
                let before = parts!(Bytes(b" before "), Decimal(before as u128), after);
                parts!(Bytes(b"differs part "), Decimal(part as u128), before).put(line, desk, slot)
            }
        }
    }
}

/// Writes the line on the test cell of the cell with this number.
#[tactic(auto, unfolding(scan_cells::specs::TestLines::test_line))]
fn write_agreement<D: Desk>(
    desk: &mut D,
    number: usize,
    found: Option<Agreement>,
) -> Result<(), Failed>
    ensures text { WritesText (D.state desk.old) (D.state desk.new) Report (test_line number found) result }
    ensures cause { HasCause (D.faults desk.old) (D.faults desk.new) result }
{
    let words = parts!(Bytes(b" "), Words(found), Bytes(b"\n"));
    let line = parts!(Bytes(b"test "), Decimal(number as u128), words);
    write_part(desk, OutSlot::Report, &line)
}

/// Whether the view that a test cell gives does what the cell does; none where it gives no view, and none where some outputs of
/// the cell may float, since such a cell is not compared.
fn agreement(
    alloc: Global,
    cell: &DrivenCell,
    test: &Group,
) -> Result<Option<Agreement>, AllocError>
    ensures { IfOk result (λ found. found ≡ found_of_test (driven_data_of cell.now) test.now) }
{
    if may_float(cell) {
        return Ok(None);
    }
    match functional_cell(alloc, &cell.core, test)? {
        Some(view) => Ok(Some(agrees(&cell.core, &view))),
        None => Ok(None),
    }
}

/// Writes the line on the test cell of an accepted cell, where the cell's group has one. (Liberty Reference Manual,
/// `test_cell` group.)
pub(crate) fn write_test<D: Desk>(
    alloc: Global,
    desk: &mut D,
    cell: &DrivenCell,
    group: &Group,
) -> Result<(), Stop>
    ensures text { Writes (D.state desk.old) (D.state desk.new) (in_report (test_lines (driven_data_of cell.now) group.now))
        result }
    ensures cause { StopsWithCause (D.faults desk.old) (D.faults desk.new) result }
{
    let Some(test) = test_of(group) else {
        return Ok(());
    };
    match agreement(alloc, cell, test) {
        Ok(found) => stopped(write_agreement(desk, cell.core.number, found)),
        Err(_) => Err(Stop::Memory),
    }
}
