//! What decides whether a row matches.
ghost use Rattle.std.specs.Prelude.{◌≡◌, Bool};

use trit_cubes::Trit;

/// A part of what decides whether a row matches.
#[derive(Clone, Copy)]
pub enum RowTest {
    /// Whether the symbol of a column matches.
    Column {
        /// The number of the column, from 0.
        place: usize,
        /// The value that the column has before the change.
        old: Trit,
        /// The value that it has after it.
        new: Trit,
    },
    /// Whether the row matches where the state has this value.
    State(Trit),
    /// Whether the row decides before those that are not so, wherever they stand.
    First,
    /// Nothing, which each row passes.
    Nothing,
}

/// A row of a table.
pub trait MaskedRow {
    ghost use Rattle.row_masks.specs.declared.row_tests.RowTest.{RowTest};

    /// Whether the row passes a test.
    ghost passes: { Self → RowTest → Bool };

    /// Whether the row passes a test.
    fn passes(&self, test: RowTest) -> bool
        ensures { result ≡ passes self.now test };
}
