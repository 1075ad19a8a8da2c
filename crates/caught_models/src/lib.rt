//! Models run beside their cell: a model is caught where its trace is unlike that of the cell.
#![tactic(auto)]

mod models;
mod traces;

pub use models::{is_entity_caught, is_module_caught};
