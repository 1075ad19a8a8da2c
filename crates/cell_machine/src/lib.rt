//! A cell as data, and its machine: the steps of its states, its outputs, its timing checks and its delays, over values
//! that may be unknown.
#![tactic(auto)]

mod arc_places;
mod arcs;
mod cell_start;
mod cells;
mod changes;
mod checks;
mod condition_names;
mod delays;
mod edges;
mod entries;
mod evaluation;
mod few;
mod fillings;
mod group_steps;
mod group_tables;
mod groups;
mod kept_arcs;
mod kept_conditions;
mod laws;
pub mod least;
mod liberty_sim;
mod output_tables;
mod outputs;
mod over;
mod pin_values;
mod pins;
mod reports;
mod shared;
mod shown;
mod simulators;
mod states;
mod steps;
mod tabled;
mod times;
mod values;

pub use arc_places::ArcPlaces;
pub use arcs::Arc;
pub use cell_start::CellStart;
pub use cells::Cell;
pub use changes::Change;
pub use checks::{Check, CheckKind, Edge, Event};
pub use delays::lesser;
pub use edges::{edge_of, is_fall, is_rise, moves};
pub use entries::entry;
pub use evaluation::output_at;
pub use few::Few;
pub use group_steps::{boolean_step, forced};
pub use group_tables::{InputStep, change_value};
pub use groups::{Both, Clocked, Gated, GroupKind, StateGroup};
pub use kept_arcs::KeptArcs;
pub use laws::{
    fewer_unknowns_keep_outputs, forced_is_step, fronts_have_fronts, last_line_is_of_history,
    report_is_whole_list, same_value_changes_nothing, times_decide_reports,
};
pub use liberty_sim::LibertySim;
pub use output_tables::{output_values, point_value};
pub use outputs::{OutputPin, Source};
pub use pin_values::numbered_value;
pub use pins::{Direction, Pin};
pub use shared::Shared;
pub use shown::Shown;
pub use simulators::{CellSim, Sizes};
pub use times::{Times, is_within, renewed};
pub use values::Values;
