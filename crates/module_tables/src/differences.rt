//! Where a table of a module gives another value than the cell.
ghost use Rattle.std.specs.Prelude.{◌≡◌, [], ◌∷◌};
ghost use Rattle.module_tables.specs.Tables.{first_difference};

use trit_cubes::{Cube, Trit};

/// What of a module has values that are compared with the cell's.
#[derive(Clone, Copy)]
pub enum AuditPart {
    /// The next state of a primitive at a change of one of its pins.
    State,
    /// Its next state at a change of the register of the checks.
    Notifier,
    /// The condition of a timing check.
    Check,
    /// The condition of a path.
    Path,
    /// An output.
    Output,
}

/// Arguments of a table, with what the cell and the model give there.
#[derive(Clone, Copy)]
pub struct Difference {
    /// What is compared.
    pub part: AuditPart,
    /// The number of the state group, the check, the arc or the output, from 1.
    pub number: usize,
    /// The values of the support in its order, after the change where there is one.
    pub places: Cube,
    /// Of a change of a pin its place in the support, from 0.
    pub changed: Option<usize>,
    /// Of a change of a pin or of the register of the checks the value before it.
    pub old: Option<Trit>,
    /// The state before the change, where there is one.
    pub state: Option<Trit>,
    /// The value of the register of the checks, after the change where it is the one that changes. None where nothing is
    /// compared that it feeds.
    pub notifier: Option<Trit>,
    /// What the cell gives.
    pub of_cell: Trit,
    /// What the model gives.
    pub of_model: Trit,
}

impl Difference {
    /// This, where its two values are not the same.
    pub(crate) fn found(self) -> Option<Difference>
        ensures { result ≡ first_difference (self ∷ []) }
    {
        if self.of_cell == self.of_model {
            None
        } else {
            Some(self)
        }
    }
}
