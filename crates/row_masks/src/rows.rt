//! The masks of a table's rows.
ghost use Rattle.std.specs.Prelude.{◌≡◌, ◌≤◌, map, length, IfOk, unwrap_or, slice_get, []};
ghost use Rattle.std.specs.List.{range_with_len};
ghost use Rattle.row_masks.specs.Masks.{table_masks, row_masks, change_masks, matching, deciding, first_row, decisive};

use crate::column_values::ColumnValues;
use crate::first_rows::first_row;
use crate::row_tests::{MaskedRow, RowTest};
use crate::value_masks::{ChangeMasks, ValueMasks, change_masks, row_mask, state_masks};
use sqlite_items::{Items, at};
use std::alloc::{AllocError, Global};
use trit_cubes::Trit;

/// The masks of the rows of a table.
#[derive(Drop)]
pub struct RowMasks {
    /// For each column those by its values.
    pub columns: Items<ChangeMasks>,
    /// Those by the state.
    pub states: ValueMasks,
    /// The rows that decide before the others.
    pub first: u64,
    /// All rows.
    pub all: u64,
}

impl RowMasks {
    /// The number of the first row of a mask that the columns let match, where there is one.
    pub fn first_match<C: ColumnValues>(&self, mask: u64, values: &C) -> Option<usize>
        requires olds { length self.now.columns ≡ length (C.olds values.now) }
        requires news { length self.now.columns ≡ length (C.news values.now) }
        ensures { result ≡ first_row (matching mask self.now.columns (C.olds values.now) (C.news values.now)) }
    {
        first_row(matching(mask, self.columns.as_slice(), values))
    }

    /// The number of the row that decides at a change of the columns in this state, where one matches.
    pub fn decisive<C: ColumnValues>(&self, state: Trit, values: &C) -> Option<usize>
        requires olds { length self.now.columns ≡ length (C.olds values.now) }
        requires news { length self.now.columns ≡ length (C.news values.now) }
        ensures { result ≡ decisive self.now state (C.olds values.now) (C.news values.now) }
    {
        let mask = matching(self.states.at(state), self.columns.as_slice(), values);
        first_row(deciding(mask, self.first))
    }
}

/// The masks of the rows of a table of so many columns, none where there are more than 64 rows. `AllocError` comes only where
/// memory is wanted and not there.
pub fn masks_of<R: MaskedRow>(
    alloc: Global,
    rows: &[R],
    columns: usize,
) -> Result<Items<RowMasks>, AllocError>
    ensures { IfOk result (λ all. all ≡ table_masks R.passes columns rows.now) }
{
    let mut all = Items::new(alloc);
    if rows.len() <= 64 {
        all.push(row_masks(alloc, rows, columns)?)?;
    }
    Ok(all)
}

/// The masks of the table with this number, none where there is no such table.
pub fn masks_at(all: &[Items<RowMasks>], number: usize) -> &[RowMasks]
    ensures { result.now ≡ unwrap_or (slice_get all.now number) [] }
{
    match at(all, number) {
        Some(masks) => masks.as_slice(),
        None => &[],
    }
}

/// The masks of the rows of a table of so many columns.
fn row_masks<R: MaskedRow>(
    alloc: Global,
    rows: &[R],
    columns: usize,
) -> Result<RowMasks, AllocError>
    requires { length rows.now ≤ 64 }
    ensures { IfOk result (λ masks. masks ≡ row_masks R.passes columns rows.now) }
{
    let all = all_columns(alloc, rows, columns)?;
    Ok(RowMasks {
        columns: all,
        states: state_masks(rows),
        first: row_mask(rows, RowTest::First),
        all: row_mask(rows, RowTest::Nothing),
    })
}

/// The masks by the values of each column.
fn all_columns<R: MaskedRow>(
    alloc: Global,
    rows: &[R],
    columns: usize,
) -> Result<Items<ChangeMasks>, AllocError>
    requires { length rows.now ≤ 64 }
    ensures { IfOk result (λ all. all ≡ map (change_masks R.passes rows.now) (range_with_len 0 columns)) }
{
    let mut all = Items::new(alloc);
    for place in 0..columns {
        all.push(change_masks(rows, place))?;
    }
    Ok(all)
}

/// The rows, of those of a mask, that the columns let match.
fn matching<C: ColumnValues>(mask: u64, columns: &[ChangeMasks], values: &C) -> u64
    requires olds { length columns.now ≡ length (C.olds values.now) }
    requires news { length columns.now ≡ length (C.news values.now) }
    ensures { result ≡ matching mask columns.now (C.olds values.now) (C.news values.now) }
{
    let mut left = mask;
    for place in 0..columns.len() {
        let change = values.change(place);
        left &= columns[place].at(change.old, change.new);
    }
    left
}

/// The rows of a mask that decide before the others, where some do, else the rows of the mask.
fn deciding(mask: u64, first: u64) -> u64
    ensures { result ≡ deciding mask first }
{
    let firsts = mask & first;
    if firsts == 0 { mask } else { firsts }
}
