//! The statements of a process on its outputs: their values, and their paths or assignments, by recursive descent.
//! (IEEE 1076.4-2000; IEEE 1076-1993, 8.4.)
#![tactic(auto)]

mod assigned;
mod lines;
mod listed_sources;
mod outputs;
mod paths;
mod sources;
mod values;

pub use lines::output_lines;
pub use outputs::{Lines, output_ports};
pub use paths::delays;
pub use values::values_of;
