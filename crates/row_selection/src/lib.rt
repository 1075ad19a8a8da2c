//! The rows of a primitive's table that may match at a change of one input, selected once for many look-ups. (Which row decides:
//! IEEE 1364-2005, clause 8. That they are selected is this project's choice.)
#![tactic(auto)]

mod change_rows;
mod laws;
mod selected_rows;

pub use change_rows::{ChangeRows, NextStates};
pub use laws::{ignored_inputs_are_free, selected_rows_decide};
