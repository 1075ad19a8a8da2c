//! The models of a file in whose sections drivers stand, each as it is run: a model of its own, or a driver over the model that
//! is its core.
#![tactic(auto)]

mod cores;
mod file_model;
mod models;

pub use file_model::FileModel;
pub use models::file_models;
