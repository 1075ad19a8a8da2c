//! Liberty text to trees of groups, and laws of their text.
#![tactic(auto)]

mod attributes;
mod contents;
mod copies;
mod cursor;
mod fault;
mod items;
mod library;
mod outline;
mod read;
mod reader;
mod recent_arguments;
mod token_texts;
mod tree;
mod values;
mod writing;

pub use attributes::{Attribute, inner_group, last_attribute, simple_attribute};
pub use contents::{Contents, UnitLine};
pub use copies::{
    copy_arguments, copy_bytes, copy_group, copy_item, copy_items, copy_text, copy_values, value_of,
};
pub use cursor::Cursor;
pub use fault::{Expected, LibraryFault, Refusal, Stop, fault_at, lexical_fault};
pub use library::LEVELS_INSIDE;
pub use outline::{Standing, next_standing};
pub use read::{End, Halt, Reading, fault_of, faults_are_first, one_reading, read_library};
pub use reader::{Mark, Place, Start, goes_on};
pub use small_lists::SmallList;
pub use tree::{Group, Item, Value};
pub use values::{Arguments, Values, one_text};
pub use writing::{writable_parts, writing_reads_back};
