//! Values that may be unknown, and cubes of such values: resolution and the primes of a set of points.
#![tactic(auto)]

mod covering;
mod cubes;
pub mod laws;
mod merging;
mod points;
mod resolution;
mod splitting;
#[cfg(test)]
mod tests;
mod trits;
#[cfg(test)]
mod trying;
mod valuation;
mod word_primes;

pub use covering::covers;
pub use cubes::Cube;
pub use merging::merge_primes;
pub use points::point_of;
pub use resolution::resolve;
pub use splitting::primes;
pub use trits::Trit;
pub use valuation::{primes_where, values_of};
