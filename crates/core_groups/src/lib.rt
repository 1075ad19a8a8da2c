//! The group of the core of a cell whose outputs may float: the cell's group without what floats, with one more output for each
//! three-state output; and the pin groups of the three-state outputs as their delays are read.
#![tactic(auto)]

mod driver_groups;
mod enable_pins;
mod groups;
mod outputs;

pub use driver_groups::{driver_pin, timing_groups};
pub use groups::core_group;
pub use outputs::{CellPins, ThreeStateOutput, is_three_state};
