//! The faults of function texts.
use thiserror::Error;

/// Why a function text was not read.
#[derive(Debug, Drop, Error)]
pub enum FunctionFault {
    /// The text has more than 4,096 bytes.
    #[error("longer than 4096 bytes")]
    TooLong,
    /// The offset, from 0, of the first token with which no function text goes on, or the text's length.
    #[error("malformed at {0}")]
    Malformed(usize),
    /// The offset, from 0, of the first name that is not in the list.
    #[error("unknown name at {0}")]
    UnknownName(usize),
    /// Memory was wanted and not there.
    #[error("out of memory")]
    Memory,
}
