//! Verilog text to modules. (IEEE 1364-2005, clauses 3, 8, 12, 14 and 15.) Their nets and instances: what stands at the terminals
//! of each instance, and what drives each net. (Clauses 7 and 8.) Their specify blocks: paths and timing checks. (Clauses 14 and
//! 15.)
#![tactic(auto)]

mod all_made;
mod check_parts;
mod checks;
mod connections;
mod driven_nets;
mod file;
mod instances;
mod laws;
mod name_search;
mod netlist;
mod nets;
mod numbers;
mod paths;
mod period_lines;
mod read;
mod terminals;

pub use laws::{added_separators_change_no_module, fault_is_at_first_token};
pub use read::read_models;
