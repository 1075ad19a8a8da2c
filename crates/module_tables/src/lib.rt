//! The comparison of the tables of a Verilog module with the functions of a cell, value by value. (What a table gives: IEEE
//! 1364-2005, clause 8. The arguments and their order are this project's rule.)
#![tactic(auto)]

mod cell_values;
mod comparison;
mod differences;
mod driven_nets;
mod keyed_rows;
mod lists;
mod model_tables;
mod net_levels;
mod net_rows;
mod resolved;
mod states;
mod values;

pub use differences::{AuditPart, Difference};
