//! The timing checks of a cell's models.
use cell_machine::{CheckKind, Event};

/// A timing check of a model. (IEEE 1364-2005, clause 15; IEEE 1076.4-2000, VitalSetupHoldCheck, VitalRecoveryRemovalCheck and
/// VitalPeriodPulseCheck.) In a Verilog text a `Period` stands for two checks, of its rises and of its falls.
#[derive(Clone, Copy)]
pub struct TimingCheck {
    /// What is checked.
    pub kind: CheckKind,
    /// The earlier event, of the port with this number.
    pub first: Event,
    /// The later event, of the port with this number.
    pub second: Event,
    /// The least distance, in picoseconds.
    pub limit: u64,
    /// What has to be 1 at the later event, where there is one: in a module the number of a wire, in an entity that of a
    /// condition.
    pub condition: Option<usize>,
}
