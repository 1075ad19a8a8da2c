//! The group of a Liberty cell with buses, bundles and banks, expanded to single bits.
#![tactic(auto)]

mod expansion;
mod gathered;
mod inner_pins;
mod pins;
mod rewritten;
mod room;
mod runs;
mod shared;
mod sink;
mod states;
mod timings;

pub use bank_refusals::{BankReason, BankRefusal, bank_refusal, has_many, refusal};
pub use gathered::gather;
pub use sink::ItemSink;
