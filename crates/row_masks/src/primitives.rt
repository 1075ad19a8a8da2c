//! Look-ups of primitives of at most 64 rows by the masks of their rows. (IEEE 1364-2005, clause 8.)
ghost use Rattle.std.specs.Prelude.{◌≡◌, ◌≤◌, length};
ghost use Rattle.udp_tables.specs.Primitive.{IsCombinational, level_output};
ghost use Rattle.udp_tables.specs.Sequential.{HasEntries, udp_next, row_next};
ghost use Rattle.row_masks.specs.Masks.{row_masks};
ghost use Rattle.row_masks.specs.LookUps.{udp_passes};

use crate::column_values::ColumnValues;
use crate::given_values::{GivingRow, given_by};
use crate::row_tests::{MaskedRow, RowTest};
use crate::rows::RowMasks;
use sqlite_items::at;
use trit_cubes::Trit;
use udp_tables::{Udp, UdpRow};

impl MaskedRow for UdpRow {
    ghost use Rattle.row_masks.specs.LookUps.{udp_passes};

    ghost passes = { udp_passes };

    fn passes(&self, test: RowTest) -> bool {
        match test {
            RowTest::Column { place, old, new } => match at(self.inputs.as_slice(), place) {
                Some(entry) => entry.matches(old, new),
                None => false,
            },
            RowTest::State(state) => self.state.matches(state),
            RowTest::First => self.is_level(),
            RowTest::Nothing => true,
        }
    }
}

impl GivingRow for UdpRow {
    ghost gives = { λ row state. row_next state row };

    fn gives(&self, state: Trit) -> Trit {
        self.next.after(state)
    }
}

/// The next state of a sequential primitive: that of the first row of levels that matches, else of the first row with a change
/// entry that matches, else x.
pub fn masked_next<C: ColumnValues>(udp: &Udp, masks: &RowMasks, state: Trit, values: &C) -> Trit
    requires table { HasEntries udp.now }
    requires few { length udp.now.rows ≤ 64 }
    requires masks { masks.now ≡ row_masks udp_passes (length udp.now.inputs) udp.now.rows }
    requires olds { length (C.olds values.now) ≡ length udp.now.inputs }
    requires news { length (C.news values.now) ≡ length udp.now.inputs }
    ensures { result ≡ udp_next udp.now.rows (C.olds values.now) (C.news values.now) state }
{
    given_by(udp.rows.as_slice(), state, masks.decisive(state, values))
}

/// The output of a combinational primitive whose inputs have the values after the change: that of the first row that matches, x
/// without one.
pub fn masked_level<C: ColumnValues>(udp: &Udp, masks: &RowMasks, values: &C) -> Trit
    requires table { IsCombinational udp.now }
    requires few { length udp.now.rows ≤ 64 }
    requires masks { masks.now ≡ row_masks udp_passes (length udp.now.inputs) udp.now.rows }
    requires still { C.olds values.now ≡ C.news values.now }
    requires news { length (C.news values.now) ≡ length udp.now.inputs }
    ensures { result ≡ level_output udp.now.rows (C.news values.now) }
{
    given_by(
        udp.rows.as_slice(),
        Trit::Unknown,
        masks.first_match(masks.all, values),
    )
}
