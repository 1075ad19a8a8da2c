//! The steps of a cell's group, tabled. A text is read once for each point of its support and each side of a clock, and a state
//! table is gone through once for 64 points.
#![tactic(auto)]

mod changes;
mod group_points;
mod input_words;
mod node_words;
mod points;
mod step_table;

pub use group_points::StateSteps;
pub use points::{point_count, point_of};
pub use step_table::StepTable;
