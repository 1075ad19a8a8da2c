//! Why the timing of a pin is not read.
use thiserror::Error;

/// Why the timing of a pin is not read. The first of these kinds decides, and of one kind the least offset.
#[derive(Debug, Drop, Error)]
pub enum TimingFault {
    /// The `when` statement at this offset is no function text, or has more than 4,096 bytes.
    #[error("malformed condition at {0}")]
    Malformed(usize),
    /// The `related_pin` statement at this offset names what is no pin, or the `when` statement at it what is no input
    /// pin.
    #[error("unknown name at {0}")]
    UnknownName(usize),
    /// The `when` statement at this offset names a pin of the check's events, or the pin where the arc starts.
    #[error("condition on its own pin at {0}")]
    OwnCondition(usize),
    /// At this offset stands a `values` statement or an attribute with a time that is no number within the limits or
    /// has an unknown unit, or the first of tables that have no entry.
    #[error("no time at {0}")]
    Number(usize),
}
