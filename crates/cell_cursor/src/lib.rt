//! A library's cells one at a time: a Liberty text that is read from a desk in pieces, and held only from the statement
//! on that has not ended.
#![tactic(auto)]

mod cursor;
mod cut;
mod item;
mod laws;
mod part;
mod piece;
mod reading;
mod seeking;
mod statements;
mod taking;
mod watch;

pub use cursor::CellCursor;
pub use item::{LibraryItem, Next};
pub use laws::{items_are_found, items_ascend};
