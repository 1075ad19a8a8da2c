//! Sections of a text that words of its language mark: where they stand, the text with spaces in their places, and where parts
//! end.
#![tactic(auto)]

mod blanks;
mod ends;
mod fronts;
mod marks;
mod sections;
mod words;

pub use blanks::blanked;
pub use ends::all_ends;
pub use marks::{Ending, Marks};
pub use sections::find_sections;
