//! Tests by tables: rows of values from outside, each of which tells whether it holds; no product code.
#![tactic(auto)]

use std::alloc::Global;
use std::test::Fail;

/// A row of a table: a call or a run, and what it has to come to.
pub trait Row {
    /// Whether it comes to that; not where memory is short.
    fn holds(&self, alloc: Global) -> bool;
}

/// The number of the first of these rows that does not hold, from 0.
fn first_wrong<R: Row>(alloc: Global, rows: &[R]) -> Option<usize> {
    for (number, row) in rows.iter().enumerate() {
        if !row.holds(alloc) {
            return Some(number);
        }
    }
    None
}

/// Fails with the number of the first of these rows that does not hold, from 0.
pub fn all_hold<R: Row>(alloc: Global, rows: &[R]) -> Result<(), Fail> {
    match first_wrong(alloc, rows) {
        None => Ok(()),
        Some(number) => Err(Fail::new(format_args!("row {number} does not hold"))),
    }
}
