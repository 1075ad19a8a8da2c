//! Why the group of a Liberty cell with buses, bundles and banks is not expanded to single bits.
#![tactic(auto)]

mod alike;
mod faults;
mod fixed;
mod members;
mod pin_faults;
mod pins_by_name;
mod ranges;
pub mod refusal;
mod refusals;
mod related;
mod shared;
mod text_names;
mod widths;

pub use alike::{are_alike, stays};
pub use faults::Place;
pub use fixed::are_fixed;
pub use members::{Member, all_items, is_shared};
pub use pins_by_name::{InnerPins, indexed_pins, member_places, named_items};
pub use refusal::{BankReason, BankRefusal};
pub use refusals::{bank_refusal, has_many, is_pins};
pub use related::{pins_named, related_words};
pub use text_names::{pin_texts, state_texts};
