//! The timing of the pins of a cell: what reading it answers, where it is wrong, the checks and the delay arcs that it makes, and
//! the timing groups that it leaves out.
#![tactic(auto)]

mod answers;
pub mod left_out;
mod offsets;
mod timings;

pub use answers::cell_timing;
pub use left_out::{LeftOut, shared_kind, type_text};
pub use offsets::{LeastOffsets, NameOffsets};
pub use timings::{CellTiming, MadeAt};
