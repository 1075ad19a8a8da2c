//! The entities that are generated for cells can be told as VHDL text, and so can lists of them. (IEEE 1076-1993, 10.3 and 13.3;
//! IEEE 1076.4-2000.)
#![tactic(auto)]

mod laws;

pub use laws::{entities_are_well_formed, entity_is_well_formed};
