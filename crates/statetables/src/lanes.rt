//! The steps of a table at 64 points at once: bit k of a word is the value at point k.
ghost use Rattle.std.specs.Prelude.{◌≡◌, ℕ, ◌<◌, ◌&&◌, ◌||◌, not, Bool, Option, None, length, if◌then◌else◌};
ghost use Rattle.statetables.specs.Symbols.{matches_in, matches_now, next_value};
ghost use Rattle.statetables.specs.Step.{inputs_match, row_matches, row_gives, table_step};
ghost use Rattle.statetables.specs.Lanes.{lane, before_at, after_at, found_at, is_one, is_zero};

use crate::symbols::{CurrentSymbol, InSymbol, NextSymbol};
use crate::table::{StateTable, TableRow};

/// The values of an input at 64 points.
#[derive(Clone, Copy)]
pub struct InputWords {
    /// Before a change.
    pub before: u64,
    /// After it.
    pub after: u64,
}

/// The next states that a table gives at 64 points, as far as its rows have been gone through.
#[derive(Clone, Copy)]
pub struct StepWords {
    undecided: u64,
    ones: u64,
    zeros: u64,
}

/// The points of both words.
fn both(left: u64, right: u64) -> u64
    ensures { (k : ℕ) → lane k result ≡ (lane k left && lane k right) }
{
    left & right
}

/// The points of a word that are not in another one.
fn less(left: u64, taken: u64) -> u64
    ensures { (k : ℕ) → lane k result ≡ (lane k left && not (lane k taken)) }
{
    left ^ (left & taken)
}

/// The points of either word.
fn either(left: u64, right: u64) -> u64
    ensures { (k : ℕ) → lane k result ≡ (lane k left || lane k right) }
{
    left | right
}

/// Whether a word has this point.
fn has(word: u64, k: usize) -> bool
    requires { k < 64 }
    ensures { result ≡ lane k word }
{
    (word >> k) & 1 == 1
}

impl InSymbol {
    /// Those of some points at which an input fits the symbol.
    fn among(self, points: u64, input: InputWords) -> u64
        ensures { (k : ℕ) → lane k result ≡ (lane k points && matches_in self (lane k input.before) (lane k input.after)) }
    {
        match self {
            InSymbol::Low => less(points, input.after),
            InSymbol::High => both(points, input.after),
            InSymbol::Any => points,
            InSymbol::Rise => both(points, less(input.after, input.before)),
            InSymbol::Fall => both(points, less(input.before, input.after)),
            InSymbol::NotRise => less(points, less(input.after, input.before)),
            InSymbol::NotFall => less(points, less(input.before, input.after)),
        }
    }
}

impl CurrentSymbol {
    /// Those of some points at which a present state fits the symbol.
    fn among(self, points: u64, states: u64) -> u64
        ensures { (k : ℕ) → lane k result ≡ (lane k points && matches_now self (lane k states)) }
    {
        match self {
            CurrentSymbol::Low => less(points, states),
            CurrentSymbol::High => both(points, states),
            CurrentSymbol::Any => points,
        }
    }
}

impl NextSymbol {
    /// Those of some points at which the symbol gives 1.
    fn ones_among(self, points: u64, states: u64) -> u64
        ensures { (k : ℕ) → lane k result ≡ (lane k points && is_one (next_value self (lane k states))) }
    {
        match self {
            NextSymbol::Low => 0,
            NextSymbol::High => points,
            NextSymbol::Keep => both(points, states),
            NextSymbol::Unknown => 0,
        }
    }

    /// Those of some points at which the symbol gives 0.
    fn zeros_among(self, points: u64, states: u64) -> u64
        ensures { (k : ℕ) → lane k result ≡ (lane k points && is_zero (next_value self (lane k states))) }
    {
        match self {
            NextSymbol::Low => points,
            NextSymbol::High => 0,
            NextSymbol::Keep => less(points, states),
            NextSymbol::Unknown => 0,
        }
    }
}

/// Those of some points at which each input matches its symbol.
fn matched(symbols: &[InSymbol], inputs: &[InputWords], points: u64) -> u64
    requires { length symbols.now ≡ length inputs.now }
    ensures { (k : ℕ) → lane k result ≡ (lane k points
        && inputs_match symbols.now (before_at k inputs.now) (after_at k inputs.now)) }
{
    let (Some((symbol, symbols)), Some((input, inputs))) = (
        symbols.split_first(),
        inputs.split_first(),
    ) else {
        return points;
    };
    let points = symbol.among(points, *input);
    if points == 0 {
        return 0;
    }
    matched(symbols, inputs, points)
}

impl TableRow {
    /// Those of some points at which the columns of the inputs match.
    fn columns_among(&self, points: u64, inputs: &[InputWords]) -> u64
        ensures { (k : ℕ) → lane k result ≡ (lane k points
            && inputs_match self.now.inputs (before_at k inputs.now) (after_at k inputs.now)) }
    {
        let symbols = self.inputs.as_slice();
        if symbols.len() != inputs.len() {
            return 0;
        }
        matched(symbols, inputs, points)
    }

    /// Those of some points at which the row matches for a node.
    fn among(&self, points: u64, node: usize, inputs: &[InputWords], states: u64) -> u64
        ensures { (k : ℕ) → lane k result ≡ (lane k points && row_matches node (before_at k inputs.now) (after_at k inputs.now)
            (lane k states) self.now) }
    {
        let points = self.columns_among(points, inputs);
        if points == 0 {
            return 0;
        }
        match self.current.get(node) {
            Some(symbol) => symbol.among(points, states),
            None => 0,
        }
    }

    /// Those of some points at which the row gives a node the next state 1.
    fn ones_among(&self, points: u64, node: usize, states: u64) -> u64
        ensures { (k : ℕ) → lane k result ≡ (lane k points && is_one (row_gives node (lane k states) self.now)) }
    {
        match self.next.get(node) {
            Some(symbol) => symbol.ones_among(points, states),
            None => 0,
        }
    }

    /// Those of some points at which the row gives a node the next state 0.
    fn zeros_among(&self, points: u64, node: usize, states: u64) -> u64
        ensures { (k : ℕ) → lane k result ≡ (lane k points && is_zero (row_gives node (lane k states) self.now)) }
    {
        match self.next.get(node) {
            Some(symbol) => symbol.zeros_among(points, states),
            None => 0,
        }
    }
}

impl StepWords {
    /// Nothing is found yet.
    fn new() -> StepWords
        ensures { (k : ℕ) → k < 64 → (later : Option Bool) → found_at k result later ≡ later }
    {
        StepWords {
            undecided: u64::MAX,
            ones: 0,
            zeros: 0,
        }
    }

    /// What is found with one more row.
    fn with_row(self, row: &TableRow, node: usize, inputs: &[InputWords], states: u64) -> StepWords
        ensures { (k : ℕ) (later : Option Bool)
            → found_at k result later ≡ found_at k self
            (if row_matches node (before_at k inputs.now) (after_at k inputs.now) (lane k states) row.now
            then row_gives node (lane k states) row.now else later) }
    {
        let points = row.among(self.undecided, node, inputs, states);
        if points == 0 {
            return self;
        }
        StepWords {
            undecided: less(self.undecided, points),
            ones: either(
                less(self.ones, points),
                row.ones_among(points, node, states),
            ),
            zeros: either(
                less(self.zeros, points),
                row.zeros_among(points, node, states),
            ),
        }
    }

    /// What is found at point k: the next state, None where it is not known.
    pub fn at(self, k: usize) -> Option<bool>
        requires { k < 64 }
        ensures { result ≡ found_at k self None }
    {
        if has(self.undecided, k) {
            None
        } else if has(self.ones, k) {
            Some(true)
        } else if has(self.zeros, k) {
            Some(false)
        } else {
            None
        }
    }
}

impl StateTable {
    /// The next states of `node` at 64 points, where its inputs and its present states have the values of these words: at
    /// each what `step` answers there, None where the table has no such node or another number of inputs. A row is looked
    /// at by the points that no row before it matched, and none is once there are no such points. It takes no memory.
    pub fn step_words(&self, node: usize, inputs: &[InputWords], states: u64) -> StepWords
        ensures { (k : ℕ) → k < 64 → found_at k result None ≡ table_step self.now node (before_at k inputs.now)
            (after_at k inputs.now) (lane k states) }
    {
        let mut words = StepWords::new();
        for row in self.rows.as_slice() {
            if words.undecided == 0 {
                return words;
            }
            words = words.with_row(row, node, inputs, states);
        }
        words
    }
}
