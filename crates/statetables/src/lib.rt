//! State tables of Liberty cells: the rows of a `statetable` group, how they are read, and the next state that they
//! give.
#![tactic(auto)]

mod fault;
mod lanes;
mod laws;
mod read;
mod symbols;
mod table;
mod text;
mod written;

pub use fault::TableFault;
pub use lanes::{InputWords, StepWords};
pub use laws::tables_read_are_rectangular;
pub use read::read_table;
pub use symbols::{CurrentSymbol, InSymbol, NextSymbol};
pub use table::{StateTable, TableRow};
