//! Why a table text does not read.
use std::alloc::{AllocError, AllocFailed};
use thiserror::Error;

/// Why a table text does not read. The first written row with a fault decides, its width before its symbols.
#[derive(Clone, Copy, Debug, PartialEq, Eq, Error)]
pub enum TableFault {
    /// The row of this number, counted among the written rows from 1, has not three parts, or a part that has not its
    /// number of symbols.
    #[error("row {0} has not its number of symbols")]
    RowWidth(usize),
    /// In this row, counted from 1, the symbol of this column, counted from 1 over all three parts, is none that may
    /// stand in its part.
    #[error("row {row}: no symbol in column {column}")]
    BadSymbol {
        /// The number of the row among the written rows, from 1.
        row: usize,
        /// The number of the symbol in the row, from 1.
        column: usize,
    },
    /// Memory was not found.
    #[error("no memory")]
    Memory,
}

impl From<AllocError> for TableFault {
    ghost use Rattle.std.specs.Prelude.{◌≡◌};
    ghost use Rattle.statetables.specs.declared.fault.TableFault.TheVariants.{Memory};

    ghost from_gives = { λ _ e. e ≡ Memory };

    fn from(_error: AllocError) -> TableFault {
        TableFault::Memory
    }
}

impl<T: Drop> From<AllocFailed<T>> for TableFault {
    ghost use Rattle.std.specs.Prelude.{◌≡◌};
    ghost use Rattle.statetables.specs.declared.fault.TableFault.TheVariants.{Memory};

    ghost from_gives = { λ _ e. e ≡ Memory };

    fn from(_error: AllocFailed<T>) -> TableFault {
        TableFault::Memory
    }
}
