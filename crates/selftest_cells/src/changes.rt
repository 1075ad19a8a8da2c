//! The changes that a cell is run on.
ghost use Rattle.std.specs.Prelude.{◌≡◌, ◌<◌, IfOk};
ghost use Rattle.selftest_cells.specs.Changes.{value_of, changes_of, ChangesAreProper};

use crate::{next, pick};
use cell_machine::Change;
use sqlite_items::Items;
use std::alloc::{AllocError, Global};
use trit_cubes::Trit;

/// How many changes each cell is run on.
pub const CHANGES_EACH: u64 = 100;

/// The value for a number: 0, 1, and X from 2 on.
fn value(number: u64) -> Trit
    ensures { result ≡ value_of number }
{
    match number {
        0 => Trit::Zero,
        1 => Trit::One,
        _ => Trit::Unknown,
    }
}

/// The changes of the cell with a number from 1 on, where it has so many inputs: the oldest first, at times that rise strictly.
/// An `Err` comes only where memory is wanting.
#[tactic(auto, unfolding(crate::specs::Changes::changes_of))]
pub fn cell_changes(alloc: Global, number: u64, inputs: usize) -> Result<Items<Change>, AllocError>
    requires { 0 < inputs }
    ensures { IfOk result (λ list. list ≡ changes_of number inputs) }
{
    let mut list = Items::new(alloc);
    let mut x = number;
    let mut at = 0;
    for _ in 0..CHANGES_EACH {
        x = next(x);
        let pin = pick(x, inputs as u64) as usize;
        x = next(x);
        let to = value(pick(x, 3));
        x = next(x);
        at += 1 + pick(x, 40);
        list.push(Change { at, pin, to })?;
    }
    Ok(list)
}

/// A law: the changes of a cell are changes of its inputs at times that rise strictly.
pub fn changes_are_proper()
    ensures { ChangesAreProper }
{}
