//! The limits of a cell. (This project's rules.)

/// The most pins of a cell.
pub const MOST_PINS: usize = 64;

/// The most states of a cell.
pub const MOST_STATES: usize = 16;

/// The most timing checks of a cell.
pub const MOST_CHECKS: usize = 256;

/// The most delay arcs of a cell.
pub const MOST_ARCS: usize = 1024;

/// The most input pins in the support of a state.
pub const MOST_STATE_PINS: usize = 8;

/// The most pins and states in the support of an output.
pub const MOST_OUTPUT_SOURCES: usize = 10;

/// The most bytes of a name.
pub const MOST_NAME_BYTES: usize = 255;
