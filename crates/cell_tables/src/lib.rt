//! The tables of a cell: the rows of its groups, outputs and conditions in any language, and its primitives.
#![tactic(auto)]

mod cell_conditions;
mod cell_cubes;
mod cell_primitives;
mod change_cubes;
mod cubes;
mod function_cubes;
mod generation;
mod group_cubes;
pub mod laws;
mod level_rows;
mod made_parts;
mod model_source;
mod part_cubes;
mod points;
mod port_names;
mod step_rows;
mod timing_checks;

pub use cell_conditions::condition_number;
pub use cell_primitives::{has_notifier, has_sources, part_udp, sequential_udp};
pub use cubes::{CellCubes, ChangeCube, FunctionCubes, GroupCubes};
pub use generation::function_udp;
pub use level_rows::part_rows;
pub use made_parts::all_made;
pub use model_source::{ModelParts, ModelSource};
pub use points::forced_at;
pub use port_names::numbered_name;
pub use step_rows::group_rows;
pub use timing_checks::checks_of;
