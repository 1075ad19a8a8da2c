//! VHDL models of cells by VITAL (IEEE 1076.4-2000): truth tables, state tables, and the entities that they stand in.
#![tactic(auto)]

mod generation;
mod kept;
pub mod laws;
mod names;
mod ports;
mod tables;
mod timing;

pub use cell_tables::{ModelParts, ModelSource};
pub use generation::vital_model;
pub use names::{driver_name, entity_name};
pub use ports::vital_ports;
pub use vital_tables::{
    HGate, HPath, OutValue, TableRow, Trits, TruthRow, TruthTable, VEntity, VNext, VOutput, VState,
    VStateRow, VStateTable, VSymbol, VTruth, keyed_state, keyed_truth, lookup_state, lookup_truth,
    model, table, words_of,
};
