//! The cells of a library, read and kept.
ghost use Rattle.std.specs.Prelude.{◌≡◌, IsTrue, IfOk};
ghost use Rattle.bool_functions.specs.NameList.{AreDistinct};
ghost use Rattle.text_io.specs.declared.slots.Slot.TheVariants.{Input};
ghost use Rattle.text_io.specs.declared.slots.InSlot.TheVariants.{Library};
ghost use Rattle.text_io.specs.Desk.{is_bound, StopsWithCause};
ghost use Rattle.library_reader.specs.LibraryCells.{all_described, cell_names};
ghost use Rattle.library_reader.specs.Endings.{library_limit};
ghost use Rattle.library_reader.specs.KeptCells.{cells_by, ReadsCells};

use crate::ending::{Ending, NotWhole};
use crate::fold::{CellFold, fold_cells};
use crate::library_cell::LibraryCell;
use crate::next::NextCell;
use cell_attributes::groups::cell_name;
use liberty_groups::Group;
use sqlite_items::Items;
use std::alloc::Global;
use text_io::{Desk, Stop};

/// The cells, in order.
impl CellFold for Vec<LibraryCell> {
    ghost made = { λ kept cells. all_described kept.items ≡ cells };

    fn take(&mut self, alloc: Global, group: &Group, next: NextCell) -> Result<(), Stop> {
        let cell = match next {
            NextCell::Accepted { cell, entity } => LibraryCell::Accepted { cell, entity },
            NextCell::Refused(refusal) => {
                let name = Items::from_slice(alloc, cell_name(group))?;
                LibraryCell::Refused { name, refusal }
            }
        };
        self.push(cell)?;
        Ok(())
    }
}

/// The cells of a library that ends so, where it is whole.
fn cells_by(ending: Ending, cells: Vec<LibraryCell>) -> Result<Vec<LibraryCell>, NotWhole>
    ensures { result ≡ cells_by ending cells }
{
    match ending {
        Ending::Whole => Ok(cells),
        Ending::Fault(fault) => Err(NotWhole::Fault(fault)),
        Ending::TooLong => Err(NotWhole::TooLong),
    }
}

/// Reads the cells of the library that is bound, where it is a library text of at most `FILE_LIMIT` bytes. Of cells of one
/// name the first is kept. Nothing is written, and of the library's text only the statement that has not ended is held.
///
/// Faults: `Failed` where a read failed, `Memory`.
pub fn read_cells<D: Desk>(
    alloc: Global,
    desk: &mut D,
) -> Result<Result<Vec<LibraryCell>, NotWhole>, Stop>
    requires { IsTrue (is_bound (D.state desk.old) (Input Library)) }
    ensures cells { ReadsCells library_limit (D.state desk.old) (D.state desk.new) result }
    ensures own { IfOk result (λ answer. IfOk answer (λ cells. AreDistinct (cell_names (all_described cells.items)))) }
    ensures cause { StopsWithCause (D.faults desk.old) (D.faults desk.new) result }
{
    let mut cells = Vec::new(alloc);
    let ending = fold_cells(alloc, desk, &mut cells)?;
    Ok(cells_by(ending, cells))
}
