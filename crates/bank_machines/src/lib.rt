//! The bank machine of a Liberty cell with buses, bundles and banks, whose states and outputs its expanded cell has.
#![tactic(auto)]

mod laws;

pub use laws::{
    accepted_cells_run_as_banks, bank_machine_is_expanded_cell, bank_machine_is_expanded_core,
    bank_texts_have_values,
};
