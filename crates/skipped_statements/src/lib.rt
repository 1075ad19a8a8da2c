//! Statements of a Liberty text that are gone past, without a tree of them.
#![tactic(auto)]

mod skip;

pub use skip::whole_statement;
