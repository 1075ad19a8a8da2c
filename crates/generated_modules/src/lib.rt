//! Cells of one library: which cells stand together in one, and what follows for all that is generated of them – of their
//! parts, of the order of their conditions, and of names with numbers. (Liberty Reference Manual, the `cell` group.)
//!
//! The definitions stand in `specs/`, and the lemmas, for the proofs of the crates above, in `proofs/`.
//! The modules that are generated for cells can be told as Verilog text, and so can lists of them. (IEEE 1364-2005, clauses 3, 8
//! and 12.)
#![tactic(auto)]

mod laws;

pub use laws::{
    accepted_are_of_one_library, accepted_modules_are_well_formed, module_is_well_formed,
    modules_are_well_formed,
};
