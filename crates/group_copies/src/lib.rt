//! Copies of groups that differ in their statements.
#![tactic(auto)]

mod kept;
mod statements;

pub use kept::{Keeps, kept_items, with_kept};
pub use statements::with_items;
