//! An inverter, its models and a short stimulus, and what they come to.
use crate::tests::runs::{FIRST_ENTITY, FIRST_MODULE, Files};

/// A library of one cell.
pub(crate) const LIBRARY: &str = "library (L) {
cell (INV) { pin (A) { direction : input; } pin (Y) { direction : output; function : \"!A\"; } }
}
";

/// A section of one change.
pub(crate) const STIMULUS: &str = "cell INV
5 A 1
";

/// The report of its simulation.
pub(crate) const REPORT: &str = "cell INV
L start : Y=x
V start : Y=x
H start : Y=x
L 5 A 1 : Y=0@0
V 5 A 1 : Y=0@0
H 5 A 1 : Y=0@0
equal
";

/// The report of its first line.
pub(crate) const START: &str = "cell INV
L start : Y=x
V start : Y=x
H start : Y=x
equal
";

/// The report of the module.
pub(crate) const VERILOG_REPORT: &str = "cell INV
V start : Y=x
V 5 A 1 : Y=0@0
";

/// The report of the entity.
pub(crate) const VITAL_REPORT: &str = "cell INV
H start : Y=x
H 5 A 1 : Y=0@0
";

/// The four files.
pub(crate) fn four_files() -> Files<'static> {
    Files {
        library: LIBRARY.as_bytes(),
        verilog: FIRST_MODULE.as_bytes(),
        vital: FIRST_ENTITY.as_bytes(),
        stimulus: STIMULUS.as_bytes(),
    }
}
