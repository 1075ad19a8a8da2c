//! User-defined primitives as tables of rows, by IEEE 1364-2005, clause 8: what they match, how they are looked up, and the rows
//! that stand for cubes.
#![tactic(auto)]

mod combinational;
mod cube_index;
mod entries;
mod matching;
mod models;
mod parts;
mod ports;
mod row_keys;
mod row_makers;
mod row_words;
mod sequential;
mod symbols;
mod table;
mod text_faults;
mod timing_checks;
mod udp_rows;

pub use combinational::{keyed_level, udp_level};
pub use cube_index::CubeIndex;
pub use entries::Entries;
pub use models::{ModelFault, VPort};
pub use parts::Part;
pub use ports::{event_of, is_input_port, is_port, port_number};
pub use row_keys::{RowKey, keys_of};
pub use row_makers::{LevelRows, StepRows};
pub use row_words::{Column, RowWords, value_word};
pub use sequential::{keyed_next, udp_next};
pub use small_bytes::SmallBytes;
pub use symbols::{PlaceSymbol, change_symbols, cube_symbols};
pub use table::{Entry, Level, Next, Udp, UdpRow};
pub use text_faults::refusal_fault;
pub use timing_checks::TimingCheck;
pub use udp_rows::UdpRows;
