//! What a simulator holds before any change.
ghost use Rattle.std.specs.Prelude.{◌≡◌, false, replicate, IfOk};
ghost use Rattle.trit_cubes.specs.declared.trits.Trit.TheVariants.{Unknown};
ghost use Rattle.cell_machine.specs.Times.{no_times};

use cell_machine::Times;
use sqlite_items::Items;
use std::alloc::{AllocError, Global};
use trit_cubes::Trit;

/// So many unknown values.
pub fn unknown_values(alloc: Global, count: usize) -> Result<Items<Trit>, AllocError>
    ensures { IfOk result (λ values. values ≡ replicate count Unknown) }
{
    let values = vec![in alloc; Trit::Unknown; count]?;
    Ok(Items::from_vec(values))
}

/// No times of so many checks.
pub fn no_times(alloc: Global, count: usize) -> Result<Items<Times>, AllocError>
    ensures { IfOk result (λ stamps. stamps ≡ replicate count no_times) }
{
    let stamps = vec![in alloc; Times::none(); count]?;
    Ok(Items::from_vec(stamps))
}

/// No report of so many checks.
pub fn no_reports(alloc: Global, count: usize) -> Result<Items<bool>, AllocError>
    ensures { IfOk result (λ reports. reports ≡ replicate count false) }
{
    let reports = vec![in alloc; false; count]?;
    Ok(Items::from_vec(reports))
}
