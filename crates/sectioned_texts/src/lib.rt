//! Texts of models, in any language, in whose sections drivers stand: the models around the sections, and the driver of each.
#![tactic(auto)]

mod answers;
mod driven_models;
mod drivers;
mod faults;
mod fronts;
mod language;
mod laws;
mod read;
mod scope;

pub use driven_models::DrivenModels;
pub use language::SectionLanguage;
pub use laws::{drivers_may_stand, text_without_sections_reads_as_before};
pub use read::read_driven_text;
