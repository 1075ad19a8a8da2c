//! Stimulus files: the changes that a simulator is given, section by section, and the lines of a trace that it shows.
//! A section of a stimulus run by simulators: the lines of a trace, printed to the report, and where two traces differ.
#![tactic(auto)]

mod catalog;
mod comparison;
mod context;
mod differences;
mod drives;
mod faults;
mod heading;
mod laws;
mod line_meanings;
mod line_pieces;
mod lines;
mod next_line;
mod plain_changes;
mod ports;
mod printing;
mod read;
mod section;
mod sections;
mod times;
mod trace;
mod trace_sim;
mod waiting;
mod written;

pub use catalog::{Catalog, CellFound, PinFound};
pub use comparison::{ThreeSimulators, none_unlike_is_equal, write_comparison, write_verdict};
pub use differences::{first_difference, no_difference_is_equal, same_line};
pub use drives::Drive;
pub use faults::{Cause, StimulusFault};
pub use heading::write_heading;
pub use laws::{
    causes_name_answers, drive_lines_show_traces, equal_lines_are_equal_traces, ports_are_inputs,
    sections_are_proper,
};
pub use line_meanings::MAX_CHANGES;
pub use ports::{PortCatalog, Ports, Standing};
pub use read::read_stimulus;
pub use section::write_section;
pub use sections::Section;
pub use trace_sim::TraceSim;
