//! What look-ups of a net need that something without a state drives.
ghost use Rattle.std.specs.Prelude.{◌≡◌, ◌≤◌, length};
ghost use Rattle.module_tables.specs.ChangeInputs.{level_inputs};

use crate::keyed_rows::KeyedRows;
use cell_machine::Few;
use trit_cubes::Trit;

/// A net that something without a state drives, or nothing, as look-ups need it.
#[derive(Drop)]
pub struct NetLevels<'a> {
    /// Where the inputs of what drives it stand among the nets whose values are given.
    pub order: Few<usize, 10>,
    /// The rows by which it is driven, none where its value is always the same.
    pub rows: Option<KeyedRows<'a>>,
    /// Its value where there are no rows.
    pub alone: Trit,
    ghost few: { length order ≤ 10 },
    ghost counted: { level_inputs (length order) rows ≡ length order },
}
