//! Names of several bits in a Liberty cell, which buses, bundles and banks make, and the texts over them.
#![tactic(auto)]

mod bus_types;
mod laws;
mod named_vectors;
mod numbers;
mod parts;
mod rewriting;
mod vectors;

pub use bus_types::{BusType, BusTypes, bus_type, type_of};
pub use laws::{rewritten_symbols, rewritten_tree, running_texts};
pub use named_vectors::{Vectors, cell_vectors, vector_named};
pub use numbers::digits_number;
pub use rewriting::{member_at, text_fails, text_for};
pub use vectors::{
    Bank, Vector, VectorKind, bank_of, bundle_members, is_bank, is_called, member_name,
    pin_vectors, positions,
};
