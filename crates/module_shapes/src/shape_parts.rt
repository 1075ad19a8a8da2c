//! What a module is made of.

/// What a module is made of, as it is compared with a cell before any table is.
#[derive(Clone, Copy)]
pub enum ShapePart {
    /// The ports: their number and their directions.
    Ports,
    /// The instances of primitives with a state: their number is that of the cell's groups.
    States,
    /// The nets that feed such an instance.
    StateInputs,
    /// The timing checks.
    Checks,
    /// The paths.
    Paths,
    /// The nets that feed the condition of a check.
    CheckInputs,
    /// The nets that feed the condition of a path.
    PathInputs,
    /// The nets that feed an output.
    Outputs,
}
