//! Which nets and instances of a Verilog module stand for the parts of a cell, and whether the ones feed the others. (IEEE
//! 1364-2005, clauses 8 and 12; how parts stand for each other is this project's rule.)
#![tactic(auto)]

pub mod condition_wires;
pub mod feeding;
pub mod supports;
pub mod terminals;
