//! Why a cell is refused: the reasons with their numbers and words, the least offset at which one is met, and which of several
//! decides.
#![tactic(auto)]

mod first;
pub mod refusal;
mod scan;

pub use first::refused_or;
pub use refusal::{Reason, Refusal};
pub use scan::{Scan, least_among, least_among_held};
