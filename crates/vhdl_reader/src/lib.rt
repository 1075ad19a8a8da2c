//! Entities read from VHDL text, by recursive descent. (IEEE 1076-1993; IEEE 1076.4-2000.)
#![tactic(auto)]

mod driven;
mod entities;
mod entity;
mod joined;
mod laws;
mod read;
mod statements;
mod wholes;

pub use laws::{added_separators_change_no_entity, fault_is_at_first_token};
pub use read::read_entities;
