//! The simulator of a VITAL entity, and the run of its process, event by event: the look-ups of its tables, the values and the
//! delays of its outputs. (IEEE 1076.4-2000.)
#![tactic(auto)]

mod conditions;
mod entity_index;
mod entity_rows;
mod entity_start;
mod entity_tables;
mod entity_values;
mod fed_conditions;
mod kept_conditions;
mod process_delays;
mod process_rooms;
mod process_run;
mod process_shown;
mod process_states;
mod process_values;
mod table_rows;
mod vital_sim;

pub use entity_start::EntityStart;
pub use vital_sim::VitalSim;
