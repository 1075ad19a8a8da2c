//! The group of a Liberty cell whose outputs may float to a core without Z and what drives its three-state outputs. A cell with
//! buses, bundles or banks is read as its cell expanded to single bits. One of more pins than a cell may have is refused as that
//! is, and no more than one of its pin groups behind the limit is held with its timing. That a cell whose alike pins are gathered
//! is read as the expanded one is a law of its own.
#![tactic(auto)]

mod driven_cell;
mod driver_refusals;
mod drivers;
mod expanded;
mod gathering;
mod laws;
mod left_out;
mod pin_attributes;
mod read;
mod subjects;
mod trimmed_items;
mod trimming;
mod wrong_timings;

pub use driven_cell::DrivenCell;
pub use expanded::read_expanded;
pub use gathering::gathered_cells_are_read_as_expanded;
pub use laws::{core_pins_are, drivers_are_of_cores, drivers_keep_limits};
pub use read::read_driven;
