//! What the runs of a module and of an entity have in common: the numbers of their ports among the inputs, the parts that these
//! feed, their timing checks, what they hold before any change, and what their outputs show.
#![tactic(auto)]

mod checks;
mod conditions;
mod delay_places;
mod fed_parts;
mod gate_changes;
mod kept_delay;
mod kept_delays;
mod numbered_lists;
mod output_change;
mod ports;
mod shown;
mod starts;
mod written_lists;

pub use checks::{InputChange, clear, compare_all, stamp_all};
pub use conditions::Conditions;
pub use delay_places::{DelayPlaces, delay_place};
pub use fed_parts::{FedPart, fed_by_inputs};
pub use gate_changes::is_gate_changed;
pub use kept_delay::KeptDelay;
pub use kept_delays::KeptDelays;
pub use numbered_lists::{add, empty_lists};
pub use output_change::OutputChange;
pub use ports::{Ports, input_count, input_number, input_numbers, input_value};
pub use shown::ShownPort;
pub use starts::{no_reports, no_times, unknown_values};
pub use written_lists::put;
