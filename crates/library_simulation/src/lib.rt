//! Simulating the cells of a library beside their Verilog and VITAL models: the files of the library, of both kinds of models and
//! of the stimulus are read, and the traces of each section are printed and compared. The cells as those that a stimulus may
//! name, the models of each, and what a simulation comes to.
#![tactic(auto)]

mod bad_lines;
mod catalog;
mod comparisons;
mod known;
mod known_beside;
mod laws;
mod named_models;
mod numbers;
mod pin_names;
mod run;
mod same_ports;
mod simulation;

pub use laws::{
    accepted_are_ready, described_are_cells, described_keep_rules, never_model_or_differ,
    no_section_differs, own_models_show_the_same, sections_can_be_compared,
};
pub use model_replay as replays;
pub use model_replay::{Verilog, Vital};
pub use run::simulate_library;
