//! Names in VHDL text: the words that are none, and which names of a cell library could be kept.
//! The lexical level of VHDL text: its tokens, which of them are names, and when two stand for the same. (IEEE 1076-1993, clause
//! 13.)
#![tactic(auto)]

mod fronts;
mod kept;
mod laws;
mod numbered;
mod scanner;
mod spelling;
#[cfg(test)]
mod tests;
mod word_groups;
mod words;

pub use kept::{is_free, is_identifier, is_numbered, is_plain};
pub use laws::tokens_are_lawful;
pub use lexer::{is_number, number_of};
pub use numbered::{is_numbered_name, numbered_name};
pub use scanner::{LastToken, scan};
pub use spelling::{is_name, is_quoted, is_same, is_string};
pub use words::{is_same_name, is_vhdl_word};
