//! The Verilog text of primitives and modules, by IEEE 1364-2005, clauses 8, 12, 14 and 15.
#![tactic(auto)]

mod checks;
mod declarations;
mod instances;
mod models;
mod names;
mod nets;
mod paths;
mod primitive;
mod symbols;
mod table;

pub use declarations::{PortLines, Ports};
pub use models::{write_model, write_prelude};
pub use paths::PathDelays;
pub use primitive::write_udp;
