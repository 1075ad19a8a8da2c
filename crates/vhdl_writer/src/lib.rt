//! The VHDL text of entities, by IEEE 1076-1993 and IEEE 1076.4-2000.
#![tactic(auto)]

mod assignments;
mod checks;
mod declarations;
mod entity;
mod names;
mod outputs;
mod parts;
mod states;
mod symbols;
mod tables;
mod twice_numbered;
mod variables;

pub use assignments::{AssignedVariables, Assignment};
pub use declarations::{EntityHeader, PortList};
pub use entity::write_entity;
pub use names::apart;
pub use parts::{At, Each, ItemText};
pub use twice_numbered::TwiceNumbered;
