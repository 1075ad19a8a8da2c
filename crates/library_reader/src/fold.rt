//! What is made of the cells of a library, one after another.
ghost use Rattle.std.specs.Prelude.{◌≡◌, List, [], ◌∷◌, ◌++◌, IsTrue, IfErr, OnOk};
ghost use Rattle.text_io.specs.declared.slots.Slot.TheVariants.{Input};
ghost use Rattle.text_io.specs.declared.slots.InSlot.TheVariants.{Library};
ghost use Rattle.text_io.specs.Desk.{is_bound, StopsWithCause};
ghost use Rattle.library_reader.specs.LibraryCells.{CellEntry};
ghost use Rattle.library_reader.specs.declared.progress.Progress.{Progress as ProgressOf};
ghost use Rattle.library_reader.specs.NextCells.{IsNext};
ghost use Rattle.library_reader.specs.KeptCells.{next_entry};
ghost use Rattle.library_reader.specs.Endings.{library_limit};
ghost use Rattle.library_reader.specs.Folds.{IsNumberedNext, FoldsCells};

use crate::ending::Ending;
use crate::items::fold_items;
use crate::next::NextCell;
use crate::progress::Progress;
use crate::writer::NothingWritten;
use liberty_groups::Group;
use std::alloc::Global;
use text_io::{Desk, Stop};

/// What is made of the cells of a library, one cell after another.
pub trait CellFold {
    /// This is made of these cells.
    ghost made: { Self → List CellEntry → Type 0 };

    /// Takes the next cell as it was read of its group, or why it is refused. It stops only where memory is wanting.
    fn take(&mut self, alloc: Global, group: &Group, next: NextCell) -> Result<(), Stop>
        requires next { (p : ProgressOf) × IsNumberedNext p group.now next }
        ensures made { OnOk result ((p : ProgressOf) → IsNext p group.now next → (cells : List CellEntry) → made self.old cells
            → made self.new (cells ++ next_entry p group.now ∷ [])) }
        ensures memory { IfErr result (λ stop. stop ≡ Stop.Memory) };
}

/// Nothing is made of the cells.
#[derive(Drop)]
pub struct NothingKept;

impl CellFold for NothingKept {
    ghost made = { λ _ _. Unit {0} };

    fn take(&mut self, _alloc: Global, _group: &Group, _next: NextCell) -> Result<(), Stop> {
        Ok(())
    }
}

/// Goes over the cells of the library that is bound, and answers how it ends. Of cells of one name the first is taken. Nothing is
/// written, and of the library's text only the statement that has not ended is held.
///
/// Faults: `Failed` where a read failed, `Memory`.
pub fn fold_cells<D: Desk, F: CellFold>(
    alloc: Global,
    desk: &mut D,
    fold: &mut F,
) -> Result<Ending, Stop>
    requires library { IsTrue (is_bound (D.state desk.old) (Input Library)) }
    requires start { F.made fold.old [] }
    ensures cells { FoldsCells (F.made fold.new) library_limit (D.state desk.old) (D.state desk.new) result }
    ensures cause { StopsWithCause (D.faults desk.old) (D.faults desk.new) result }
{
    let mut progress = Progress::new(alloc);
    fold_items(alloc, desk, &mut progress, &NothingWritten, fold)
}
