//! The files of models and the stimulus of a run: their formats and limits, what each is read as, and the lines that tell of one
//! that ends the run. All of it holds of each language of models, and of each catalog of cells.
#![tactic(auto)]

mod bad_line;
mod faults;
mod format;
mod known;
mod language;
mod limits;
mod model_file;
mod stimulus_file;

pub use bad_line::BadLineStop;
pub use faults::write_stimulus_fault;
pub use format::ModelFormat;
pub use known::nothing_known;
pub use language::ModelLanguage;
pub use limits::STIMULUS_LIMIT;
pub use model_file::read_model_file;
pub use stimulus_file::read_stimulus_file;
