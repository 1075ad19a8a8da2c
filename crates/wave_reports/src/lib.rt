//! The report of a simulation or of a replay as waves: a value change dump. (IEEE 1364-2005, clause 18.)
//! Drawing the waves of a report, over any desk: the report is read, and a value change dump is written.
#![tactic(auto)]

mod changes;
mod command;
mod definitions;
mod draw;
mod dump;
mod lines;
mod pieces;
mod sections;
mod signs;
mod texts;
mod traces;
mod waves;
mod words;

pub use command::run;
pub use run_outcome::{Status, open_closed_streams, program_words};
pub use waves::{Waves, waves_of};
pub use words::desk_words;
