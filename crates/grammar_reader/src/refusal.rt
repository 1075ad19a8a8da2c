//! Why a reading stops.

ghost use Rattle.std.specs.Prelude.{◌≡◌};
ghost use Rattle.grammar_reader.specs.declared.refusal.Stop.TheVariants as stop;

use std::alloc::{AllocError, AllocFailed};

/// Why no text goes on with a token (`Syntax`, `Undefined`), or which strict rule the token breaks (the others).
#[derive(Clone, Copy)]
pub enum Refusal {
    Syntax,
    TwoEdges,
    Width,
    Undefined,
    Twice,
    Undriven,
    Unequal,
}

/// Why a reading stopped before its end.
#[derive(Clone, Copy)]
pub enum Stop {
    /// At the next token, or at the end of the tokens.
    Refused(Refusal),
    /// There was no memory for what is read.
    Memory,
}

/// What is read, or why the reading stopped.
pub type Read<A> = Result<A, Stop>;

impl From<AllocError> for Stop {
    ghost from_gives = { λ _ e. e ≡ stop.Memory };

    fn from(_: AllocError) -> Stop {
        Stop::Memory
    }
}

impl<T: Drop> From<AllocFailed<T>> for Stop {
    ghost from_gives = { λ _ e. e ≡ stop.Memory };

    fn from(_: AllocFailed<T>) -> Stop {
        Stop::Memory
    }
}
