//! The group of a Liberty cell to the cell, or to the first reason why it is refused.
#![tactic(auto)]

mod cell_groups;
mod early;
mod fault;
mod later;
mod laws;
mod limits;
mod numbered;
mod parts;
mod read;
mod scans;
mod text_faults;

pub use cell_refusals::{Reason, Refusal, refusal};
pub use cell_timings::{LeftOut, left_out, shared_kind, type_text};
pub use fault::CellFault;
pub use laws::{
    accepted_cells_are_sound, accepted_meets_none, accepted_pins_are_sound, accepted_states_are_few,
};
pub use parts::names_of;
pub use read::{ReadCell, read_cell};
pub use scans::first_offset;
