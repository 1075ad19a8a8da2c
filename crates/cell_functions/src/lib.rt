//! The states and the outputs of a Liberty cell over its own numbers, made from what its texts say.
#![tactic(auto)]

pub mod cell_numbers;
pub mod output_pins;
mod sources;
pub mod state_groups;
mod text_kinds;
