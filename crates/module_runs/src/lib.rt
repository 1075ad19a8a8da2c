//! The simulator of a Verilog module, and its run, event by event: the values of its nets, the next states of its primitives, the
//! delays of its outputs. (IEEE 1364-2005, clauses 8, 14 and 15.)
#![tactic(auto)]

mod conditions;
mod delays;
mod drivers;
mod fed_instances;
mod gates;
mod kept_values;
mod module_index;
mod module_rows;
mod module_run;
mod module_shown;
mod module_start;
mod module_states;
mod module_tables;
mod module_values;
mod net_values;
mod output_paths;
mod primitives;
mod tables;
mod verilog_sim;
mod wiring;

pub use module_start::ModuleStart;
pub use verilog_sim::VerilogSim;
