//! The desk: all that a command asks of the world outside it. Words are read, files are bound, read and written
//! through it, and nothing else reaches out. Three desks keep the one trait: over memory, over memory without
//! failures, and over real files.
//! Parts of a text, and how they are put one behind the other. That a part puts its text is said once, by a trait, and so it is
//! of the items of a list. No call takes memory.
#![tactic(auto)]

mod asked;
mod each_slot;
mod file_commands;
mod file_words;
mod gate;
mod host;
mod line;
mod lists;
mod memory;
mod named_files;
mod opened;
mod outside;
mod parts;
mod piece;
mod reading;
mod sink;
mod sinks;
mod size_limit;
mod slots;
mod stop;
mod sure;
mod whole;
mod writing;

pub use asked::asked_files;
pub use file_commands::FileCommand;
pub use gate::GatedDesk;
pub use host::FileDesk;
pub use line::Line;
pub use lists::{Each, ItemText};
pub use memory::{Memory, MemoryDesk};
pub use named_files::NamedFile;
pub use outside::{Desk, Failed};
pub use parts::{Bytes, Decimal, Part, Put, When};
pub use reading::{Taken, read_all};
pub use slots::{InSlot, OutSlot, Slot};
pub use stop::Stop;
pub use sure::SureDesk;
pub use whole::write_part;
pub use writing::{write_pieces, write_whole};
