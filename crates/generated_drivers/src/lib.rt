//! The models of the three-state drivers of cells, in both languages.
#![tactic(auto)]

mod generation;
mod laws;

pub use generation::{own_pins, verilog_driver, vital_driver};
pub use laws::{cores_are_numbered, verilog_drivers_fit, vital_drivers_fit};
