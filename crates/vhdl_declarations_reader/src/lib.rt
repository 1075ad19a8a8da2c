//! The declarations of an entity and of its architecture, by recursive descent. (IEEE 1076-1993, 1.1 and 1.2; IEEE 1076.4-2000.)
#![tactic(auto)]

mod constants;
mod header;
mod process;
mod rows;
mod scope;
mod state_rows;
mod symbols;
mod truth_rows;
mod variable_names;
mod variables;

pub use header::{packages, port_list};
pub use process::{input_names, listed_names};
pub use scope::scope_of;
pub use udp_tables as primitives;
pub use variable_names::is_last_false;
pub use variables::set_last;
pub use vhdl_grammar as grammar;
pub use vital_tables as entities;
