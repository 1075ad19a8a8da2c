//! Things that are found by their names, in the time of one look-up.
#![tactic(auto)]

mod all_places;
mod places;

pub use all_places::AllPlaces;
pub use places::{FirstNames, Named, first_names};
