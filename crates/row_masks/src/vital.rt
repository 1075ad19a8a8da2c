//! Look-ups of VITAL's tables of at most 64 rows by the masks of their rows. (IEEE 1076.4-2000, VitalTruthTable and
//! VitalStateTable.)
ghost use Rattle.std.specs.Prelude.{◌≡◌, ◌≤◌, All, length};
ghost use Rattle.vital_tables.specs.LookUps.{lookup_truth, lookup_state, row_next};
ghost use Rattle.row_masks.specs.Masks.{row_masks};
ghost use Rattle.row_masks.specs.LookUps.{truth_passes, state_passes};

use crate::column_values::ColumnValues;
use crate::given_values::{GivingRow, given_by};
use crate::row_tests::{MaskedRow, RowTest};
use crate::rows::RowMasks;
use sqlite_items::at;
use trit_cubes::Trit;
use vital_tables::{TruthRow, TruthTable, VStateRow, VStateTable};

impl MaskedRow for TruthRow {
    ghost use Rattle.row_masks.specs.LookUps.{truth_passes};

    ghost passes = { truth_passes };

    fn passes(&self, test: RowTest) -> bool {
        match test {
            RowTest::Column { place, new, .. } => match at(self.inputs.as_slice(), place) {
                Some(level) => level.matches(new),
                None => false,
            },
            RowTest::State(_) => true,
            RowTest::First => true,
            RowTest::Nothing => true,
        }
    }
}

impl MaskedRow for VStateRow {
    ghost use Rattle.row_masks.specs.LookUps.{state_passes};

    ghost passes = { state_passes };

    fn passes(&self, test: RowTest) -> bool {
        match test {
            RowTest::State(state) => self.state.matches(state),
            RowTest::Column { place, old, new } => match at(self.inputs.as_slice(), place) {
                Some(symbol) => symbol.matches(old, new),
                None => false,
            },
            RowTest::First => true,
            RowTest::Nothing => true,
        }
    }
}

impl GivingRow for TruthRow {
    ghost gives = { λ row _. row.result };

    fn gives(&self, _: Trit) -> Trit {
        self.result
    }
}

impl GivingRow for VStateRow {
    ghost gives = { λ row state. row_next state row };

    fn gives(&self, state: Trit) -> Trit {
        self.result.after(state)
    }
}

/// What a truth table of so many columns gives for the values after the change: the result of the first row that matches, X
/// without one.
pub fn masked_truth<C: ColumnValues>(table: &TruthTable, masks: &RowMasks, values: &C) -> Trit
    requires rows { All (λ row. length row.inputs ≡ length (C.news values.now)) table.now.rows }
    requires few { length table.now.rows ≤ 64 }
    requires masks { masks.now ≡ row_masks truth_passes (length (C.news values.now)) table.now.rows }
    requires still { C.olds values.now ≡ C.news values.now }
    ensures { result ≡ lookup_truth table.now.rows (C.news values.now) }
{
    given_by(
        table.rows.as_slice(),
        Trit::Unknown,
        masks.first_match(masks.all, values),
    )
}

/// The next state that a state table gives: that of the first row that matches, X without one.
pub fn masked_state<C: ColumnValues>(
    table: &VStateTable,
    masks: &RowMasks,
    state: Trit,
    values: &C,
) -> Trit
    requires rows { All (λ row. length row.inputs ≡ length (C.news values.now)) table.now.rows }
    requires few { length table.now.rows ≤ 64 }
    requires masks { masks.now ≡ row_masks state_passes (length (C.news values.now)) table.now.rows }
    requires olds { length (C.olds values.now) ≡ length (C.news values.now) }
    ensures { result ≡ lookup_state table.now.rows (C.olds values.now) (C.news values.now) state }
{
    given_by(
        table.rows.as_slice(),
        state,
        masks.first_match(masks.states.at(state), values),
    )
}
