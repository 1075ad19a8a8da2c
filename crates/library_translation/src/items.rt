//! The items of a library, one after another: what is written for each.
ghost use Rattle.std.specs.Prelude.{[], ◌∷◌};
ghost use Rattle.text_io.specs.{declared.slots.OutSlot.TheVariants.VerilogText, declared.slots.OutSlot.TheVariants.VitalText};
ghost use Rattle.text_io.specs.Desk.{StopsWithCause};
ghost use Rattle.run_outcome.specs.Written.{in_report};
ghost use Rattle.library_reader.specs.{LeftOutLines.left_out_file_line, Endings.library_limit};
ghost use Rattle.library_translation.specs.{Cells.cell_written, Library.IsReady, Library.Handles};

use crate::cells::write_accepted;
use crate::stopped::stopped;
use cell_attributes::groups::cell_name;
use liberty_groups::Group;
use library_reader::{
    Ending, ItemWriter, NextCell, NothingKept, Progress, fold_items, write_left_out_file,
    write_refused_cell,
};
use std::alloc::Global;
use text_io::{Desk, Stop};

/// The models of the cells, and the lines of the report.
#[derive(Drop)]
struct CellModels;

impl ItemWriter for CellModels {
    ghost outputs = { VerilogText ∷ VitalText ∷ [] };

    ghost for_cell = { cell_written };

    ghost for_left_out = { in_report left_out_file_line };

    fn write_cell<D: Desk>(
        &self,
        alloc: Global,
        desk: &mut D,
        progress: &Progress,
        group: &Group,
        next: &NextCell,
    ) -> Result<(), Stop> {
        match next {
            NextCell::Accepted { cell, entity } => {
                write_accepted(alloc, desk, cell, entity.as_slice(), group)
            }
            NextCell::Refused(refusal) => {
                let number = progress.next_number();
                stopped(write_refused_cell(desk, number, cell_name(group), refusal))
            }
        }
    }

    fn write_left_out<D: Desk>(&self, desk: &mut D) -> Result<(), Stop> {
        stopped(write_left_out_file(desk))
    }
}

/// Handles the items of the library that is bound, in the order of the file, up to its end or its limit. What becomes of an
/// item is written before anything further is read.
pub(crate) fn handle_items<D: Desk>(
    alloc: Global,
    desk: &mut D,
    progress: &mut Progress,
) -> Result<Ending, Stop>
    requires { IsReady (D.state desk.old) progress.old }
    ensures text { Handles library_limit (D.state desk.old) (D.state desk.new) progress.old progress.new result }
    ensures cause { StopsWithCause (D.faults desk.old) (D.faults desk.new) result }
{
    fold_items(alloc, desk, progress, &CellModels, &mut NothingKept)
}
