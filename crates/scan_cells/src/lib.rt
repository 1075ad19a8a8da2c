//! Test cells beside the scan cells in which they stand: the test view of a cell, and the first point at which the two do
//! not do the same.
#![tactic(auto)]

mod answers;
mod by_points;
mod compared_places;
mod comparison;
mod enables;
mod functional;
mod group_steps;
mod laws;
mod masks;
mod numbering;
mod output_table;
mod output_values;
mod places;
mod point_steps;
mod points;
mod readings;
mod sources;
mod test_group;
mod view_pins;
mod views;

pub use answers::Agreement;
pub use comparison::agrees;
pub use functional::functional_cell;
pub use laws::{changes_one_place, differences_differ, same_is_agreement};
pub use test_group::test_of;
pub use views::View;
