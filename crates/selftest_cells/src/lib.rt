//! The library that a run makes for itself: its cells as groups, and its text, given cell by cell as of a file that is read.
//! Changes of cells that are drawn by numbers, and models that are damaged in one row.
#![tactic(auto)]

mod changes;
mod damage;
mod draws;
mod library;
mod own_library;
mod sums;

pub use changes::{CHANGES_EACH, cell_changes, changes_are_proper};
pub use damage::{
    damaged_entities_are_sound, damaged_entity, damaged_module, damaged_modules_are_sound,
};
pub use draws::{next, pick};
pub use library::are_writable;
pub use own_library::OwnLibrary;
