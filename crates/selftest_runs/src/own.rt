//! What is counted of the library that a run makes for itself.
ghost use Rattle.std.specs.Prelude.{◌≡◌, ◌≤◌, IfOk};
ghost use Rattle.selftest_runs.specs.OwnCounts.{own_counts};

use crate::counts::Counts;
use crate::library::count_cells;
use selftest_cells::OwnLibrary;
use std::alloc::{AllocError, Global};

/// What is counted of the first so many test cells, of which each is made, read and run in its turn. An `Err` comes only where
/// memory is wanting.
pub fn selftest_counts(alloc: Global, cells: u64) -> Result<Counts, AllocError>
    requires { cells ≤ 10000 }
    ensures { IfOk result (λ counts. counts ≡ own_counts cells) }
{
    let mut library = OwnLibrary::new(alloc, cells)?;
    match count_cells(alloc, &mut library) {
        Ok(counts) => Ok(counts),
        Err(_) => Err(AllocError),
    }
}
