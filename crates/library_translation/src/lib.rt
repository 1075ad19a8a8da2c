//! Translating a library: the Verilog and VHDL models of its cells and the lines of its report are written, item by item.
#![tactic(auto)]

mod cells;
mod items;
mod models;
mod run;
mod stopped;
mod test_lines;

pub use run::translate_library;
