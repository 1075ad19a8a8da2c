//! How many bytes a file of a run may have.

/// The most bytes that a library, a file of models or a report may have.
pub const FILE_LIMIT: usize = 67_108_864;
