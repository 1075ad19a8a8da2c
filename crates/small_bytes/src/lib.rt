//! Bytes that need no memory of their own while they are few.
#![tactic(auto)]

mod bytes;
mod room;
mod shared;

pub use bytes::{MarkedBytes, SmallBytes};
pub use shared::SharedBytes;
