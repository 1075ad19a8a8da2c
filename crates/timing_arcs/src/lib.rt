//! The timing checks and delay arcs of one pin of a Liberty cell.
#![tactic(auto)]

mod arc_list;
mod condition;
mod fault;
mod found;
mod group_text;
mod laws;
mod making;
mod offsets;
mod pin_limits;
mod pin_timing;
mod plain_entries;
mod related;
mod subject;
mod tables;
mod timing_texts;
mod timing_type;
mod under_pin;
mod when_text;
mod words;

pub use fault::TimingFault;
pub use laws::{
    arcs_are_apart, arcs_are_sound, arcs_end_here, checks_are_sound, timings_are_placed,
};
pub use pin_timing::read_timing;
pub use subject::{PinTiming, Room, StatementOffsets, Subject};
pub use timing_texts::TimingTexts;
