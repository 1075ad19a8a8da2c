//! What the row with a number gives.
ghost use Rattle.std.specs.Prelude.{◌≡◌};
ghost use Rattle.trit_cubes.specs.declared.trits.Trit.TheVariants as trit;
ghost use Rattle.row_masks.specs.Masks.{by_number};

use sqlite_items::at;
use trit_cubes::Trit;

/// A row of a table, by what it gives.
pub(crate) trait GivingRow {
    ghost use Rattle.trit_cubes.specs.declared.trits.Trit.{Trit};

    /// What the row gives in a state.
    ghost gives: { Self → Trit → Trit };

    /// What the row gives in a state.
    fn gives(&self, state: Trit) -> Trit
        ensures { result ≡ gives self.now state };
}

/// What the row with this number gives in a state, unknown where there is none.
pub(crate) fn given_by<R: GivingRow>(rows: &[R], state: Trit, number: Option<usize>) -> Trit
    ensures { result ≡ by_number (λ row. R.gives row state) rows.now trit.Unknown number }
{
    let Some(number) = number else {
        return Trit::Unknown;
    };
    match at(rows, number) {
        Some(row) => row.gives(state),
        None => Trit::Unknown,
    }
}
