//! The commands of lib2sim: the whole run of a command over a desk.
#![tactic(auto)]

mod command;
mod commands;
mod laws;

pub use command::{run, run_gated, run_sure};
pub use laws::{
    audited_cells_agree, entities_are_well_formed, libraries_read_back, modules_are_well_formed,
    own_models_agree, own_modules_audit_well, verilog_is_of_modules, vital_is_of_entities,
};
pub use run_outcome::{Status, open_closed_streams, program_words};
