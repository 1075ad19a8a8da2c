//! Why a call stops before its end.
ghost use Rattle.std.specs.Prelude.{◌≡◌};
ghost use Rattle.text_io.specs.declared.stop.Stop.TheVariants.{Failed as WasFailed, Memory as NoMemory};

use crate::outside::Failed;
use std::alloc::{AllocError, AllocFailed};
use thiserror::Error;

/// Why a call stops before its end.
#[derive(Clone, Copy, Debug, Error)]
pub enum Stop {
    /// A call on the world outside failed.
    #[error("a call outside the program failed")]
    Failed,
    /// There was no memory.
    #[error("out of memory")]
    Memory,
}

impl From<Failed> for Stop {
    ghost from_gives = { λ _ made. made ≡ WasFailed };

    fn from(_failed: Failed) -> Stop {
        Stop::Failed
    }
}

impl From<AllocError> for Stop {
    ghost from_gives = { λ _ made. made ≡ NoMemory };

    fn from(_error: AllocError) -> Stop {
        Stop::Memory
    }
}

impl<T: Drop> From<AllocFailed<T>> for Stop {
    ghost from_gives = { λ _ made. made ≡ NoMemory };

    fn from(_error: AllocFailed<T>) -> Stop {
        Stop::Memory
    }
}
