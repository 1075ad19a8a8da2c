//! What the models in both languages share.
ghost use Rattle.std.specs.Prelude.{◌≡◌};
ghost use Rattle.udp_tables.specs.declared.models.ModelFault.TheVariants as fault;

use small_bytes::SmallBytes;
use std::alloc::{AllocError, AllocFailed};
use thiserror::Error;

/// A port of a model.
#[derive(Drop)]
pub struct VPort {
    /// The name, in bytes.
    pub name: SmallBytes,
    /// Whether it is an input; otherwise it is an output.
    pub input: bool,
}

/// Why a text is no list of models, with the offset from 0 of the place, in bytes. The least offset decides, then this
/// order.
#[derive(Debug, Drop, Error)]
pub enum ModelFault {
    /// A byte with which no token begins, a comment that is not closed, or a number of too many digits.
    #[error("no token at {0}")]
    Lexical(usize),
    /// The first token with which no text goes on, or the end.
    #[error("unexpected token at {0}")]
    Syntax(usize),
    /// The second change entry of a row.
    #[error("two change entries at {0}")]
    TwoEdges(usize),
    /// A list of the wrong length.
    #[error("wrong number of entries at {0}")]
    Width(usize),
    /// A name that is not what its place allows.
    #[error("undefined name at {0}")]
    Undefined(usize),
    /// A name declared twice, or a net driven twice.
    #[error("second name or driver at {0}")]
    Twice(usize),
    /// The end of a model in which nothing drives an output or a wire.
    #[error("nothing drives a net of the model that ends at {0}")]
    Undriven(usize),
    /// The second of two limits that differ.
    #[error("unequal limits at {0}")]
    Unequal(usize),
    /// Memory was wanted and not there.
    #[error("out of memory")]
    Memory,
}

impl<T: Drop> From<AllocFailed<T>> for ModelFault {
    ghost from_gives = { λ _ e. e ≡ fault.Memory };

    fn from(_: AllocFailed<T>) -> ModelFault {
        ModelFault::Memory
    }
}

impl From<AllocError> for ModelFault {
    ghost from_gives = { λ _ e. e ≡ fault.Memory };

    fn from(_: AllocError) -> ModelFault {
        ModelFault::Memory
    }
}
