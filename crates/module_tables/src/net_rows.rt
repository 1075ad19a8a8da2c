//! What look-ups of an instance of a primitive with a state need.
ghost use Rattle.std.specs.Prelude.{◌≡◌, ◌≤◌, length};
ghost use Rattle.module_tables.specs.ChangeInputs.{input_count};

use cell_machine::Few;
use row_selection::ChangeRows;

/// An instance of a primitive with a state at changes of one net from one value, as look-ups need it.
#[derive(Drop)]
pub struct NetRows<'a> {
    /// Where the instance's inputs stand among the nets whose values are given.
    pub order: Few<usize, 10>,
    /// The rows that may match, none where the state stays.
    pub rows: Option<ChangeRows<'a>>,
    ghost few: { length order ≤ 10 },
    ghost counted: { input_count (length order) rows ≡ length order },
}
