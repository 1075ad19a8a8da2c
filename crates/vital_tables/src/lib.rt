//! The tables of VITAL (IEEE 1076.4-2000) as data: truth tables and state tables, what their rows match, how they are looked up,
//! the rows that stand for cubes, and those in every state table that this project writes. The entities that hold them, as data,
//! and when one is sound.
#![tactic(auto)]

mod lookups;
mod matching;
pub mod model;
mod row_makers;
mod row_words;
mod state_tables;
mod symbols;
pub mod table;

pub use lookups::{keyed_state, keyed_truth, lookup_state, lookup_truth};
pub use model::{HGate, HPath, OutValue, VEntity, VOutput, VState, VTruth};
pub use row_makers::{StateTableRows, TruthTableRows};
pub use row_words::{TableRow, words_of};
pub use state_tables::state_rows;
pub use table::{Trits, TruthRow, TruthTable, VNext, VStateRow, VStateTable, VSymbol};
pub use udp_tables as primitives;
