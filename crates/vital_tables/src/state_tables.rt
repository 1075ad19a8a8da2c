//! The rows of a state table, in their order.
ghost use Rattle.std.specs.Prelude.{◌≡◌, replicate, IfOk};
ghost use Rattle.vital_tables.specs.Rows.{violated, steady_row, closing_row, state_rows_around};

use crate::table::{Trits, VNext, VStateRow, VSymbol};
use sqlite_items::Items;
use std::alloc::{AllocError, Global};

/// The rows of a state table over so many pins, with a column of the violation where there is one: the row that keeps the state
/// where nothing changes, these rows, and the row that makes the state unknown where no other one matches. `AllocError` comes
/// only where memory is wanting.
pub fn state_rows(
    alloc: Global,
    violation: bool,
    pins: usize,
    decisive: Items<VStateRow>,
) -> Result<Items<VStateRow>, AllocError>
    ensures { IfOk result (λ rows. rows ≡ state_rows_around violation pins decisive) }
{
    let mut rows = Items::new(alloc);
    rows.push(steady_row(alloc, violation, pins)?)?;
    rows.append(decisive)?;
    rows.push(closing_row(alloc, violation, pins)?)?;
    Ok(rows)
}

/// The row that keeps the state where there is no violation and no pin changes.
fn steady_row(alloc: Global, violation: bool, pins: usize) -> Result<VStateRow, AllocError>
    ensures { IfOk result (λ row. row ≡ steady_row violation pins) }
{
    let level = VSymbol::Level(Trits::Zero);
    Ok(VStateRow {
        inputs: columns(alloc, violation, level, VSymbol::Steady, pins)?,
        state: Trits::Any,
        result: VNext::Keep,
    })
}

/// The row that makes the state unknown where no other one matches.
fn closing_row(alloc: Global, violation: bool, pins: usize) -> Result<VStateRow, AllocError>
    ensures { IfOk result (λ row. row ≡ closing_row violation pins) }
{
    let any = VSymbol::Level(Trits::Any);
    Ok(VStateRow {
        inputs: columns(alloc, violation, any, any, pins)?,
        state: Trits::Any,
        result: VNext::Unknown,
    })
}

/// One symbol for all pins, after that of the violation where there is one.
fn columns(
    alloc: Global,
    violation: bool,
    first: VSymbol,
    others: VSymbol,
    pins: usize,
) -> Result<Items<VSymbol>, AllocError>
    ensures { IfOk result (λ columns. columns ≡ violated violation first (replicate pins others)) }
{
    let mut columns = Vec::new(alloc);
    if violation {
        columns.push(first)?;
    }
    columns.extend_from_slice(&vec![in alloc; others; pins]?)?;
    Ok(Items::from_vec(columns))
}
