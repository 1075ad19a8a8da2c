//! The lexical level of Verilog text: its tokens, its words, and which names of a cell library are kept. (IEEE 1364-2005, clause
//! 3 and annex B.)
#![tactic(auto)]

mod bytes_told;
mod fronts;
mod kept;
mod laws;
mod scanner;
mod word_groups;
mod words;

pub use kept::{is_kept_cell_name, is_kept_port_name};
pub use laws::tokens_are_lawful;
pub use lexer::{is_number, number_of};
pub use scanner::{InTable, scan};
pub use words::{is_name, is_verilog_word};
