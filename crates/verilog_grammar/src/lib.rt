//! What Verilog text of this project's subset is: its grammar, the modules that a text has, and its faults. (IEEE 1364-2005,
//! clauses 3, 7, 8, 12, 14, 15 and 19.) The definitions stand in `specs/`; here the headers and declarations of modules are read:
//! their ports, wires and the register of their checks. (Clauses 12.1 to 12.3, and A.1 to A.3.)
#![tactic(auto)]

mod declarations;
mod laws;
mod ports;
mod wires;

pub use declarations::{Inputs, module_declarations, module_inputs, module_outputs, some_ports};
pub use laws::{texts_are_well_formed, verilog_text_has_one_answer};
pub use specify_blocks as modules;
