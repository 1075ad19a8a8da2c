//! The comparison of a Verilog module with a cell, table by table. (IEEE 1364-2005, clauses 8, 14 and 15; how parts stand for
//! each other is this project's rule.)
#![tactic(auto)]

mod comparison;
mod laws;
mod verdicts;

pub use comparison::audit;
pub use laws::same_is_matching;
pub use module_shapes::ShapePart;
pub use module_tables::{AuditPart, Difference};
pub use verdicts::Verdict;
