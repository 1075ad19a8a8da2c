//! Groups to Liberty text.
#![tactic(auto)]

mod writer;

pub use writer::write_group;
