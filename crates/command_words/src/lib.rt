//! What the words of a command line ask for: a command, or nothing, where they have no reading. Nothing is opened.
#![tactic(auto)]

mod commands;
mod numerals;

pub use commands::{Command, Memory, asked};
