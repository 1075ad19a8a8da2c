//! The parts of the group of a Liberty cell: its pins, states, names, texts and outputs, and what is wrong with them.
#![tactic(auto)]

pub mod declarations;
mod group_texts;
pub mod groups;
pub mod held;
mod laws;
pub mod limits;
pub mod outputs;
pub mod pins;
pub mod state_readings;
pub mod states;
mod supports;
mod table_inputs;
mod table_texts;
pub mod texts;
pub mod vocabulary;

pub use laws::{groups_keep_rules, outputs_keep_rules};
