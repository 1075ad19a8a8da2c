//! Masks of rows by values. Bit i of a mask is set where row i passes a test.
ghost use Rattle.std.specs.Prelude.{◌≡◌, ◌≤◌, ◌<◌, ◌+◌, ◌*◌, ◌^◌, length};
ghost use Rattle.row_masks.specs.declared.row_tests.RowTest.TheVariants as test;
ghost use Rattle.row_masks.specs.Masks.{bit, row_mask, mask_at, masks_at, state_masks, column_masks, change_masks};

use crate::row_tests::{MaskedRow, RowTest};
use trit_cubes::Trit;

/// A mask for each value.
#[derive(Clone, Copy)]
pub struct ValueMasks {
    /// That for 0.
    pub zero: u64,
    /// That for 1.
    pub one: u64,
    /// That for x.
    pub unknown: u64,
}

/// The masks of a column: for each value before a change those for the values after it.
#[derive(Clone, Copy)]
pub struct ChangeMasks {
    /// Those where it was 0.
    pub from_zero: ValueMasks,
    /// Those where it was 1.
    pub from_one: ValueMasks,
    /// Those where it was x.
    pub from_unknown: ValueMasks,
}

impl ValueMasks {
    /// The mask for a value.
    pub fn at(&self, value: Trit) -> u64
        ensures { result ≡ mask_at self.now value }
    {
        match value {
            Trit::Zero => self.zero,
            Trit::One => self.one,
            Trit::Unknown => self.unknown,
        }
    }
}

impl ChangeMasks {
    /// The mask for a column that goes from one value to another, or keeps its value.
    pub fn at(&self, old: Trit, new: Trit) -> u64
        ensures { result ≡ masks_at self.now old new }
    {
        match old {
            Trit::Zero => self.from_zero.at(new),
            Trit::One => self.from_one.at(new),
            Trit::Unknown => self.from_unknown.at(new),
        }
    }
}

/// The bit of a row that passes a test, or does not.
fn bit(passes: bool) -> u64
    ensures is { result ≡ bit passes }
    ensures below { result < 2 }
{
    if passes { 1 } else { 0 }
}

/// The mask of the rows that pass a test.
pub(crate) fn row_mask<R: MaskedRow>(rows: &[R], test: RowTest) -> u64
    requires { length rows.now ≤ 64 }
    ensures { result ≡ row_mask (λ row. R.passes row test) rows.now }
{
    let mut mask = 0;
    let mut left = rows.len();
    while left > 0 {
        left -= 1;
        mask = bit(rows[left].passes(test)) + 2 * mask;
    }
    mask
}

/// The masks of the rows by the state.
pub(crate) fn state_masks<R: MaskedRow>(rows: &[R]) -> ValueMasks
    requires { length rows.now ≤ 64 }
    ensures { result ≡ state_masks R.passes rows.now }
{
    ValueMasks {
        zero: row_mask(rows, RowTest::State(Trit::Zero)),
        one: row_mask(rows, RowTest::State(Trit::One)),
        unknown: row_mask(rows, RowTest::State(Trit::Unknown)),
    }
}

/// The masks of the rows by the value of a column after a change, where it was this one before.
fn column_masks<R: MaskedRow>(rows: &[R], place: usize, old: Trit) -> ValueMasks
    requires { length rows.now ≤ 64 }
    ensures { result ≡ column_masks R.passes rows.now place old }
{
    ValueMasks {
        zero: row_mask(rows, column_test(place, old, Trit::Zero)),
        one: row_mask(rows, column_test(place, old, Trit::One)),
        unknown: row_mask(rows, column_test(place, old, Trit::Unknown)),
    }
}

/// The test of a column.
fn column_test(place: usize, old: Trit, new: Trit) -> RowTest
    ensures { result ≡ test.Column place old new }
{
    RowTest::Column { place, old, new }
}

/// The masks of the rows by the values of a column.
pub(crate) fn change_masks<R: MaskedRow>(rows: &[R], place: usize) -> ChangeMasks
    requires { length rows.now ≤ 64 }
    ensures { result ≡ change_masks R.passes rows.now place }
{
    ChangeMasks {
        from_zero: column_masks(rows, place, Trit::Zero),
        from_one: column_masks(rows, place, Trit::One),
        from_unknown: column_masks(rows, place, Trit::Unknown),
    }
}
