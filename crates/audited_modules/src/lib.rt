//! What a module shows that matches a cell, and that the module that is generated for a cell does match it. (IEEE 1364-2005,
//! clauses 8, 14 and 15.)
#![tactic(auto)]

mod laws;

pub use laws::{
    audited_modules_agree, differences_are_unlike, generated_modules_are_same,
    generated_modules_match, matching_modules_fit,
};
