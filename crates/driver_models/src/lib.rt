//! Models of three-state drivers, in either language: a model that joins a core and one buffer for each of its driven outputs,
//! and what the grammars of both languages have in common.
#![tactic(auto)]

mod cores;
mod known_names;
mod language;
mod laws;
mod model;
mod path_ends;
mod terminals;
mod wires;

pub use cores::{Core, Cores, core_name};
pub use known_names::KnownNames;
pub use language::DriverLanguage;
pub use laws::core_ports_are_decided;
pub use model::DriverModel;
pub use path_ends::{path_from, path_to};
pub use terminals::core_terminals;
pub use wires::declared_wires;
