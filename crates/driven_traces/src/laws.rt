//! Laws of driven traces, for the crates above. The functions do nothing.
ghost use Rattle.driven_traces.specs.Laws.{EqualCoresDriveEqually, NothingDrivenIsCore};

/// The law that of two cores with equal traces on some changes the driven traces on these changes are equal.
#[tactic(auto, using(crate::proofs::DrivenTraces::equal_cores_drive_equally))]
pub fn equal_cores_drive_equally()
    ensures { EqualCoresDriveEqually }
{}

/// The law that where nothing is driven the driven machine is the core: so what has no three-state output may be run behind
/// a driver too.
#[tactic(auto, using(crate::proofs::DrivenTraces::nothing_driven_is_core))]
pub fn nothing_driven_is_core()
    ensures { NothingDrivenIsCore }
{}
