//! What is kept of a cell of a library.
ghost use Rattle.std.specs.Prelude.{◌≡◌};
ghost use Rattle.library_reader.specs.LibraryCells.{name_of, described};

use cell_reader::Refusal;
use sqlite_items::Items;
use three_state_cells::DrivenCell;

/// A cell of a library, with what its models need beside its group, or why it has none.
#[derive(Drop)]
pub enum LibraryCell {
    /// A cell that is accepted.
    Accepted {
        /// The cell.
        cell: DrivenCell,
        /// The name of its VITAL model, in bytes.
        entity: Items<u8>,
    },
    /// A cell that is refused.
    Refused {
        /// Its name, in bytes.
        name: Items<u8>,
        /// Why it is refused.
        refusal: Refusal,
    },
}

impl LibraryCell {
    /// The name of the cell.
    pub fn name(&self) -> &[u8]
        ensures { result.now ≡ name_of (described self.now) }
    {
        match self {
            LibraryCell::Accepted { cell, .. } => cell.name.as_slice(),
            LibraryCell::Refused { name, .. } => name.as_slice(),
        }
    }
}
