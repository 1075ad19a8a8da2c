//! Modules of Verilog: what joins a cell's primitives, with its delays and timing checks. (IEEE 1364-2005, clauses 12, 14 and
//! 15.)
#![tactic(auto)]

mod generation;
mod instances;
mod laws;
mod model;
mod names;
mod nets;
mod ports;
mod primitives;
mod timing;

pub use generation::verilog_model;
pub use laws::generated_is_sound;
pub use model::{Gate, Instance, VModule, VNet, VPath};
pub use names::{driver_name, module_name};
pub use nets::pin_net;
pub use ports::verilog_ports;
