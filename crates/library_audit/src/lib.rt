//! Comparing the cells of a library with the modules of a Verilog file, table by table: both files are read, and a line for each
//! accepted cell is printed. Cells whose outputs may float are left out, and drivers are no modules.
#![tactic(auto)]

mod audits;
mod files;
mod laws;
mod lines;
mod modules;
mod run;
mod words;

pub use laws::{done_is_match, same_line_is_match};
pub use run::audit_library;
