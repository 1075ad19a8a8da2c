//! Verilog text of models of three-state drivers: a core and a buffer for each of its driven outputs, in a module of a cell.
//! (IEEE 1364-2005, clauses 7.4, 12, 14 and 19.1.)
#![tactic(auto)]

mod buffers;
mod core_call;
mod drive_paths;
mod language;
mod paths;
mod ports;
mod read_buffers;
mod section;
mod writer;

pub use language::VerilogDrivers;
pub use writer::write_driver;
