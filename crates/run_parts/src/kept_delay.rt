//! A delay of paths, as it is kept.

/// The least delay of the paths from an input to an output, as it was found.
#[derive(Clone, Copy)]
pub struct KeptDelay {
    /// The number of the input where the paths start.
    pub input: usize,
    /// The number of the output where they end.
    pub output: usize,
    /// How often all was forgotten before it was found.
    pub turn: u64,
    /// The delay, in picoseconds.
    pub delay: u64,
}
