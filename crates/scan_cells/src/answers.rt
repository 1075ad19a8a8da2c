//! What the comparison of a scan cell with its test view answers.
use trit_cubes::Trit;

/// Whether a test view does what its scan cell does while the scan enable is inactive.
#[derive(Clone, Copy)]
pub enum Agreement {
    /// At every point.
    Same,
    /// Not at these points, and these are the first ones.
    Differs {
        /// The state group or the output, from 1: the groups come before the outputs.
        part: usize,
        /// The point before the change, as a number in which place k weighs 2 to the power k. The places are the pins of
        /// both supports, ascending, and for an output the states behind them.
        before: u32,
        /// The point after the change; for an output the same.
        after: u32,
        /// The state before the change; 0 for an output.
        state: bool,
        /// What the cell gives there.
        of_cell: Trit,
        /// What the view gives there, another value.
        of_view: Trit,
    },
}

/// A difference of a cell and its view.
#[derive(Clone, Copy)]
pub struct Difference {
    /// The state group or the output, from 1: the groups come before the outputs.
    pub part: usize,
    /// The point before the change.
    pub before: u32,
    /// The point after the change.
    pub after: u32,
    /// The state before the change.
    pub state: bool,
    /// What the cell gives.
    pub of_cell: Trit,
    /// What the view gives, another value.
    pub of_view: Trit,
}

impl Difference {
    ghost use Rattle.std.specs.Prelude.{◌≡◌, Some};
    ghost use Rattle.scan_cells.specs.Comparison.{difference};

    /// The difference, which is one where the values are not the same.
    pub fn found(self) -> Option<Difference>
        ensures { result ≡ difference self.part self.before self.after self.state self.of_cell self.of_view }
    {
        if self.of_cell == self.of_view {
            None
        } else {
            Some(self)
        }
    }
}
