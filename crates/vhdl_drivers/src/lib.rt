//! VHDL text of models of three-state drivers: a core and a buffer for each of its driven outputs, in an entity with its
//! architecture. (IEEE 1076-1993, clauses 1.1, 1.2, 9.2 and 9.6; IEEE 1076.4-2000.)
#![tactic(auto)]

mod buffers;
mod core_call;
mod driven_lines;
mod front;
mod inputs;
mod language;
mod lines;
mod path_calls;
mod path_lists;
mod read;
mod section;
mod variables;
mod writer;

pub use language::VitalDrivers;
pub use writer::write_driver;
