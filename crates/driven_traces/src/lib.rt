//! Three-state outputs: the trace of a cell whose outputs are driven under enables, made of the trace of its core, which has
//! each enable as one more output and shows no `z`.
#![tactic(auto)]

mod delays;
mod driven_sim;
mod drivers;
mod drives;
mod laws;

pub use delays::DrivePath;
pub use driven_sim::{DriveShown, DrivenSim};
pub use drivers::Driver;
pub use drives::drive;
pub use laws::{equal_cores_drive_equally, nothing_driven_is_core};
