//! Texts with sections that are written piece by piece: what their sections are, and what stands around them, put together from
//! what is known of each piece, whatever their language is.
//!
//! The definitions stand in `specs/`, and the lemmas in `proofs/`, for the proofs of the crates above.
#![tactic(auto)]
