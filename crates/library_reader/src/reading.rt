//! The library file of a command: its cells are read, or the run ends.
ghost use Rattle.std.specs.Prelude.{◌≡◌, IfOk, IfErr, OnOk, Contains};
ghost use Rattle.text_io.specs.declared.slots.Slot.TheVariants.{Input};
ghost use Rattle.text_io.specs.declared.slots.InSlot.TheVariants.{Library};
ghost use Rattle.text_io.specs.Plan.{plan};
ghost use Rattle.bool_functions.specs.NameList.{AreDistinct};
ghost use Rattle.library_reader.specs.LibraryCells.{all_described, cell_names};
ghost use Rattle.run_outcome.specs.FileSteps.{FileIsTaken, FileEndsRun, TellsStop, StopsWithStatus};
ghost use Rattle.library_reader.specs.LibraryAnswer.{library_answer, library_stop};

use crate::ending::NotWhole;
use crate::faults::{write_library_fault, write_library_too_long};
use crate::keeping::read_cells;
use crate::library_cell::LibraryCell;
use run_outcome::{Status, ended};
use std::alloc::Global;
use text_io::{Desk, InSlot};

/// Tells how a library that is not whole ends the run.
fn tell_not_whole<D: Desk>(desk: &mut D, why: NotWhole) -> Status
    ensures text { TellsStop (library_stop why) (D.state desk.old) (D.state desk.new) result }
    ensures cause { StopsWithStatus (D.faults desk.old) (D.faults desk.new) result }
{
    match why {
        NotWhole::Fault(fault) => ended(write_library_fault(desk, &fault), Status::Library),
        NotWhole::TooLong => ended(write_library_too_long(desk), Status::TooLong),
    }
}

/// Binds the library that the word at this place names, and reads its cells: of cells of one name the first. A library that is
/// not whole, or has more than `FILE_LIMIT` bytes, is told by a line of the faults, and ends the run.
pub fn read_library_file<D: Desk>(
    alloc: Global,
    desk: &mut D,
    place: usize,
) -> Result<Vec<LibraryCell>, Status>
    requires { Contains (plan (D.state desk.old).words) (Input Library, place) }
    ensures ok { IfOk result (λ cells. FileIsTaken library_answer (D.state desk.old) (D.state desk.new) Library place
        (all_described cells.items)) }
    ensures own { IfOk result (λ cells. AreDistinct (cell_names (all_described cells.items))) }
    ensures err { IfErr result (FileEndsRun library_answer (D.state desk.old) (D.state desk.new) Library place) }
    ensures kept { OnOk result (D.faults desk.new ≡ D.faults desk.old) }
    ensures cause { IfErr result (StopsWithStatus (D.faults desk.old) (D.faults desk.new)) }
{
    desk.bind_in(InSlot::Library, place)?;
    match read_cells(alloc, desk) {
        Ok(Ok(cells)) => Ok(cells),
        Ok(Err(why)) => Err(tell_not_whole(desk, why)),
        Err(stop) => Err(Status::from(stop)),
    }
}
