//! Changes of inputs.
use trit_cubes::Trit;

/// An input takes a value.
#[derive(Clone, Copy, PartialEq, Eq)]
pub struct Change {
    /// When, in picoseconds.
    pub at: u64,
    /// The number of the input, from 0 among the inputs.
    pub pin: usize,
    /// The value that it takes.
    pub to: Trit,
}
