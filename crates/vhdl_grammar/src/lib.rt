//! What VHDL text of this project's subset is: its grammar, the entities that a text has, and its faults. (IEEE 1076-1993 and
//! IEEE 1076.4-2000.) The definitions stand in `specs/`; here are the parts of an entity of which they speak while it is read, and
//! what its readers have in common: words, numbers and names at the next token, what is declared of an entity, found by its name,
//! and look-ups of conditions.
#![tactic(auto)]

mod aggregates;
mod conditions;
mod declarations;
mod language;
mod laws;
mod listed;
mod lowercase_names;
mod names;
mod ports;
mod scope;
mod unlisted_names;
mod widths;
mod words;

pub use aggregates::elements;
pub use conditions::{Uses, condition, place_among};
pub use declarations::Declarations;
pub use language::{Cursor, Vhdl};
pub use laws::{texts_are_well_formed, vhdl_text_has_one_answer};
pub use listed::Listed;
pub use lowercase_names::LowercaseNames;
pub use names::{an_input, input_of, list_end};
pub use ports::Ports;
pub use scope::{Assigned, Columns, Scope, Tables, Variables};
pub use udp_tables as primitives;
pub use vital_tables as entities;
pub use widths::{state_width, truth_width, width_at};
pub use words::{either_word, expect_all, is_number_token, numbered, this_number, time};
