//! Lists that need no more memory than their items while these are few.
#![tactic(auto)]

mod list;

pub use list::{Placed, SmallList};
