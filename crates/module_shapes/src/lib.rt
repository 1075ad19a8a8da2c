//! Whether the parts of a Verilog module are those of a cell, apart from the values of its tables. (IEEE 1364-2005, clauses 8, 14
//! and 15; how parts stand for each other is this project's rule.)
#![tactic(auto)]

mod shape;
mod shape_parts;

pub use shape::{ShapeTest, first_amiss};
pub use shape_parts::ShapePart;
