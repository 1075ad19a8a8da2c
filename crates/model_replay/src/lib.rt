//! Verilog and VHDL as a run reads, names and runs their models. (IEEE 1364-2005; IEEE 1076-1993 and IEEE 1076.4-2000.) What
//! their texts are, what their models are called, and what runs of them stands in `specs/`. Replaying a file of models under a
//! stimulus: what it comes to, the models as the cells that a stimulus may name, its two files, and the sections that are
//! printed. All of it holds of each language of models.
#![tactic(auto)]

mod bad_line;
mod catalog;
mod known;
mod laws;
mod printing;
mod reading;
mod run;
mod starts;
mod traces;
mod verilog;
mod verilog_sections;
mod vital;
mod vital_sections;

pub use laws::{
    entities_have_own_names, modules_have_own_names, plain_entities_read_as_before,
    plain_modules_read_as_before, well_formed_entities_have_own_names,
};
pub use module_runs::ModuleStart;
pub use process_runs::EntityStart;
pub use run::replay_models;
pub use starts::{known_entity, known_module, start_entity, start_module};
pub use verilog::Verilog;
pub use verilog_sections::read_driven_models;
pub use vital::Vital;
pub use vital_sections::read_driven_entities;
