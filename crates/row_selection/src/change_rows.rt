//! Look-ups of a primitive with a state at changes of one input.
ghost use Rattle.std.specs.Prelude.{◌≡◌, ◌<◌, ◌≤◌, true, length, slice_set};
ghost use Rattle.udp_tables.specs.Sequential.{HasEntries, udp_next};
ghost use Rattle.udp_tables.specs.RowWords.{value_word};
ghost use Rattle.row_selection.specs.Selection.{selection, ignored};
ghost use Rattle.row_selection.specs.NextStates.{next_states};

use crate::selected_rows::{SelectedRow, add_rows, chosen, ignored};
use cell_machine::Few;
use trit_cubes::Trit;
use udp_tables::{Entry, Level, Next, RowWords, Udp, udp_next, value_word};

/// The next states at a change of the inputs.
#[derive(Clone, Copy)]
pub struct NextStates {
    /// From 0.
    pub zero: Trit,
    /// From 1.
    pub one: Trit,
    /// From x.
    pub unknown: Trit,
}

/// The rows of a primitive with a state that may match at a change of one input from one value.
#[derive(Drop)]
pub struct ChangeRows<'a> {
    /// The primitive.
    pub udp: &'a Udp,
    /// The number of the input that changes, from 0.
    pub place: usize,
    /// The value that it had.
    pub old: Trit,
    rows: Few<SelectedRow, 64>,
    /// Whether there was room for all rows; else they are looked up in the table itself.
    whole: bool,
    ghost table: { HasEntries udp.now },
    ghost inside: { place < length udp.now.inputs },
    ghost few: { length udp.now.inputs ≤ 32 },
    ghost are_rows: { whole ≡ true → rows ≡ selection place old udp.now.rows },
}

/// A place for rows.
fn no_row() -> SelectedRow {
    SelectedRow {
        words: RowWords {
            asked: 0,
            values: 0,
        },
        entry: Entry::Star,
        state: Level::Any,
        next: Next::Unknown,
    }
}

impl<'a> ChangeRows<'a> {
    /// The rows that may match at a change of the input with this number from this value. Takes no memory.
    pub fn of(udp: &'a Udp, place: usize, old: Trit) -> ChangeRows<'a>
        requires table { HasEntries udp.now }
        requires place { place < length udp.now.inputs }
        requires few { length udp.now.inputs ≤ 32 }
        ensures udp { result.udp.now ≡ udp.now }
        ensures place { result.place ≡ place }
        ensures old { result.old ≡ old }
    {
        let mut rows = Few::new(no_row());
        let whole = add_rows(&mut rows, udp, place, old, true)
            && add_rows(&mut rows, udp, place, old, false);
        ChangeRows {
            udp,
            place,
            old,
            rows,
            whole,
        }
    }

    /// The next state at that change, where the inputs have these values after it, and these have this word.
    fn next_by(&self, state: Trit, inputs: &[Trit], word: u64) -> Trit
        requires inputs { length inputs.now ≡ length self.now.udp.now.inputs }
        requires word { word ≡ value_word inputs.now }
        ensures { result ≡ udp_next self.now.udp.now.rows (slice_set inputs.now self.now.place self.now.old) inputs.now state }
    {
        if !self.whole {
            return udp_next(self.udp, state, inputs, self.place, self.old);
        }
        let new = inputs[self.place];
        chosen(self.rows.as_slice(), word, self.old, new, state)
    }

    /// The next state at that change, where the inputs have these values after it: that of the first row of levels that matches,
    /// else of the first row with a change entry that matches, else x (IEEE 1364-2005, clause 8).
    pub fn next(&self, state: Trit, inputs: &[Trit]) -> Trit
        requires { length inputs.now ≡ length self.now.udp.now.inputs }
        ensures { result ≡ udp_next self.now.udp.now.rows (slice_set inputs.now self.now.place self.now.old) inputs.now state }
    {
        self.next_by(state, inputs, value_word(inputs))
    }

    /// The same from each state.
    pub fn next_states(&self, inputs: &[Trit]) -> NextStates
        requires { length inputs.now ≡ length self.now.udp.now.inputs }
        ensures { result ≡ next_states (udp_next self.now.udp.now.rows (slice_set inputs.now self.now.place self.now.old)
            inputs.now) }
    {
        let word = value_word(inputs);
        NextStates {
            zero: self.next_by(Trit::Zero, inputs, word),
            one: self.next_by(Trit::One, inputs, word),
            unknown: self.next_by(Trit::Unknown, inputs, word),
        }
    }

    /// Whether no row that may match asks anything of the inputs that stand under this number in an order of the inputs. The next
    /// state at that change does not depend on their values then.
    pub fn ignores(&self, order: &[usize], number: usize) -> bool
        ensures { result ≡ ignored self.now.place self.now.old number order.now self.now.udp.now.rows }
    {
        ignored(self.udp, self.place, self.old, order, number)
    }
}
