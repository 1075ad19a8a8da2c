//! Why no cell is read.
use cell_refusals::Refusal;
use std::alloc::AllocError;
use thiserror::Error;

/// Why no cell is read.
#[derive(Debug, Drop, Error)]
pub enum CellFault {
    /// The cell meets a reason to be refused: the first of the reasons that it meets, at the least offset.
    #[error("cell refused")]
    Refused(Refusal),
    /// There was no memory.
    #[error("out of memory")]
    Memory,
}

impl From<AllocError> for CellFault {
    ghost use Rattle.std.specs.Prelude.{◌≡◌};
    ghost use Rattle.cell_reader.specs.declared.fault.CellFault.TheVariants as fault;

    ghost from_gives = { λ _ e. e ≡ fault.Memory };

    fn from(_: AllocError) -> CellFault {
        CellFault::Memory
    }
}
