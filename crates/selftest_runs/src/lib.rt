//! The test cells run: each cell, its Verilog module and its VITAL entity on drawn changes, the models as their texts tell them,
//! and then damaged models beside the cell. What is counted, and the report on it. A model that is written as text into memory
//! and read back is the model that was written. (IEEE 1364-2005, A.1; IEEE 1076-1993, 1.1 and 1.2; IEEE 1076.4-2000.)
#![tactic(auto)]

mod cells;
mod counts;
mod entity_texts;
mod laws;
mod library;
mod models;
mod module_texts;
mod numbered_cells;
mod one_model;
mod own;
mod report;
mod text_desk;

pub use cells::count_cell;
pub use counts::{Counts, known_values};
pub use entity_texts::{entity_read_back, read_back_entity};
pub use laws::next_cells_have_entity_names;
pub use library::count_cells;
pub use module_texts::{module_read_back, read_back_module};
pub use own::selftest_counts;
pub use report::write_report;
