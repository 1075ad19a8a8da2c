//! How many bytes a stimulus may have.

/// The most bytes that a stimulus may have.
pub const STIMULUS_LIMIT: usize = 16_777_216;
