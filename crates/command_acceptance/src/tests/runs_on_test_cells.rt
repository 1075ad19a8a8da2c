//! Runs of `selftest`.
use super::words_runs::{USAGE, WordsRun, prints, unread};
use crate::tests::runs::done;
use std::test::Fail;
use table_tests::all_hold;

/// The report on two test cells.
pub(crate) const TWO_CELLS: &str = "cells 2
changes 200
known 117
caught 2 2
equal
";

/// The report on eight test cells.
const EIGHT_CELLS: &str = "cells 8
changes 800
known 430
caught 8 8
equal
";

const COUNTED: [WordsRun<'static>; 2] = [
    prints!(["selftest", "2"], TWO_CELLS),
    prints!(["selftest", "00008"], EIGHT_CELLS),
];

#[test]
fn known_values_and_damaged_models_are_counted(rt: HostRuntime) -> Result<(), Fail> {
    all_hold(rt.alloc(), &COUNTED)
}

const OUTSIDE_LIMITS: [WordsRun<'static>; 4] = [
    unread!("selftest", "0"),
    unread!("selftest", "10001"),
    unread!("selftest", "000002"),
    unread!("selftest", "+2"),
];

#[test]
fn counts_of_cells_are_within_their_limits(rt: HostRuntime) -> Result<(), Fail> {
    all_hold(rt.alloc(), &OUTSIDE_LIMITS)
}
