//! Primitives of Verilog text, by recursive descent. (IEEE 1364-2005, clause 8.)
#![tactic(auto)]

mod declared;
mod language;
mod named_items;
mod named_parts;
mod primitives;
mod row;
mod text_names;

pub use declared::declare;
pub use language::{Cursor, Verilog};
pub use named_items::NamedItems;
pub use named_parts::{NamedPart, add_listed};
pub use primitives::primitive;
pub use text_names::{TextNames, new_name};
