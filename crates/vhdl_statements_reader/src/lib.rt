//! The statements of a process up to its outputs: timing checks and tables of states, by recursive descent. (IEEE 1076.4-2000.)
#![tactic(auto)]

mod checks;
mod columns;
mod limits;
mod pulses;
mod table_calls;

pub use checks::{Checks, all_checks};
pub use table_calls::{state_calls, violation};
