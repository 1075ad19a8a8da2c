//! What is counted of the cells of a library.
ghost use Rattle.std.specs.Prelude.{◌≡◌, IfOk, IsTrue};
ghost use Rattle.text_io.specs.declared.slots.Slot.TheVariants.{Input};
ghost use Rattle.text_io.specs.declared.slots.InSlot.TheVariants.{Library};
ghost use Rattle.text_io.specs.Desk.{is_bound, StopsWithCause};
ghost use Rattle.library_reader.specs.declared.progress.Progress.{Progress};
ghost use Rattle.library_reader.specs.Folds.{IsNumberedNext};
ghost use Rattle.selftest_runs.specs.LibraryCounts.{counted_next, all_counts, CountsCells};

use crate::cells::count_driven;
use crate::counts::Counts;
use crate::laws::next_cells_have_entity_names;
use liberty_groups::Group;
use library_reader::{CellFold, NextCell, fold_cells};
use std::alloc::{AllocError, Global};
use text_io::{Desk, Stop};

/// What is counted of the next cell as it was read of its group: nothing of one that is refused, and nothing of one whose outputs
/// may float.
fn count_next(alloc: Global, group: &Group, next: &NextCell) -> Result<Counts, AllocError>
    requires { (p : Progress) × IsNumberedNext p group.now next.now }
    ensures { IfOk result (λ counts. counts ≡ counted_next next.now) }
{
    let _at = group.at;
    next_cells_have_entity_names();
    match next {
        NextCell::Accepted { cell, entity } => count_driven(alloc, cell, entity.as_slice()),
        NextCell::Refused(_) => Ok(Counts::none()),
    }
}

/// What is counted of the cells.
impl CellFold for Counts {
    ghost made = { λ counts cells. counts ≡ all_counts cells };

    fn take(&mut self, alloc: Global, group: &Group, next: NextCell) -> Result<(), Stop> {
        let more = count_next(alloc, group, &next);
        self.add(more)
    }
}

/// Counts the cells of the library that is bound, of which at most as many bytes are read as a library may have. Of cells of one
/// name the first counts, nothing is counted of one whose outputs may float, and how the library ends does not matter. One cell
/// is held at a time, and of the library's text only the statement that has not ended.
///
/// Faults: `Failed` where a read failed, `Memory` where there was none or a count comes to 2 to the 64th.
pub fn count_cells<D: Desk>(alloc: Global, desk: &mut D) -> Result<Counts, Stop>
    requires { IsTrue (is_bound (D.state desk.old) (Input Library)) }
    ensures counts { CountsCells (D.state desk.old) (D.state desk.new) result }
    ensures cause { StopsWithCause (D.faults desk.old) (D.faults desk.new) result }
{
    let mut counts = Counts::none();
    fold_cells(alloc, desk, &mut counts)?;
    Ok(counts)
}
