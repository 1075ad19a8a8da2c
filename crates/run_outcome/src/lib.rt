//! What a run of a command comes to, and what it leaves on the desk: the statuses, the texts of an outcome, the files that
//! are bound and what is read of them, how a line tells that something is refused, and what a program needs of its process. Each
//! command's own outcome stands above.
#![tactic(auto)]

mod limits;
mod process;
mod refusals;
mod status;

pub use limits::FILE_LIMIT;
pub use process::{open_closed_streams, program_words};
pub use refusals::RefusalText;
pub use status::{Status, compared_status, ended};
