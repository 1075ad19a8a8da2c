//! A change as the primitives of a module see it.
use trit_cubes::Trit;

/// What changes.
#[derive(Clone, Copy)]
pub enum Turned {
    /// The input with this number.
    Input(usize),
    /// The register of the checks.
    Notifier,
}

/// A change as the primitives see it.
#[derive(Clone, Copy)]
pub struct Turn {
    /// What changes.
    pub what: Turned,
    /// The value that it had.
    pub from: Trit,
}
