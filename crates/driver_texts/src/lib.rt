//! What the texts of models of three-state drivers have in common in both languages: which ports are driven, and by which
//! numbers, and how lists of them are put and read. (The form of the texts is this project's.)
#![tactic(auto)]

mod core_terminals;
mod counts;
mod driven_outputs;
mod numbered_names;
mod numbered_ports;
mod port_names;
mod section_parts;
mod sections;

pub use core_terminals::CoreLine;
pub use counts::{input_count, output_count};
pub use driven_outputs::driven_names;
pub use numbered_names::{ListedNames, NumberedNames, WireNames};
pub use numbered_ports::{EachPort, PortAt, PortText};
pub use port_names::{input_name, output_name};
pub use section_parts::{CoreCall, SectionFront, driver_of, fresh_name, nothing_left};
pub use sections::{DriverSections, read_driver};
