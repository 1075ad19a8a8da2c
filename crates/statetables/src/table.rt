//! A state table, and its step.
ghost use Rattle.std.specs.Prelude.{◌≡◌, ◌<◌, length};
ghost use Rattle.statetables.specs.Step.{inputs_match as inputs_match_of};

use crate::symbols::{CurrentSymbol, InSymbol, NextSymbol};
use sqlite_items::Items;

/// A row of a state table. A row that was written with `L/H` or `H/L` stands here as two rows.
#[derive(Drop)]
pub struct TableRow {
    /// A symbol for each input of the table, in the table's order.
    pub inputs: Items<InSymbol>,
    /// A symbol for the present state of each node, in the table's order.
    pub current: Items<CurrentSymbol>,
    /// A symbol for the next state of each node, in the table's order.
    pub next: Items<NextSymbol>,
}

impl TableRow {
    ghost use Rattle.statetables.specs.Step.{row_matches, row_gives};

    /// Whether the row matches for `node`, with the inputs' values `before` a change and `after` it and the node's
    /// present `state`.
    fn matches(&self, node: usize, before: &[bool], after: &[bool], state: bool) -> bool
        requires node_exists { node < length self.now.current }
        requires one_before { length before.now ≡ length self.now.inputs }
        requires one_after { length after.now ≡ length self.now.inputs }
        ensures { result ≡ row_matches node before.now after.now state self.now }
    {
        inputs_match(self.inputs.as_slice(), before, after)
            && self.current.as_slice()[node].matches(state)
    }

    /// The next state that the row gives `node`, whose present state is `state`.
    fn gives(&self, node: usize, state: bool) -> Option<bool>
        requires { node < length self.now.next }
        ensures { result ≡ row_gives node state self.now }
    {
        self.next.as_slice()[node].value(state)
    }
}

/// A state table of a Liberty cell: rows over inputs and nodes, of which the first one that matches counts.
#[derive(Drop)]
pub struct StateTable {
    /// How many inputs it has.
    pub inputs: usize,
    /// How many nodes it has.
    pub nodes: usize,
    /// Its rows, in order.
    pub rows: Items<TableRow>,
}

impl StateTable {
    ghost use Rattle.statetables.specs.Step.{table_step, row_of, IsRectangular};

    /// The next state of `node`, where the inputs' values are `before` ahead of a change and `after` behind it, and the
    /// node's present state is `s`: that of the first row that matches. None where it is not known, because no row
    /// matches or the row gives `X` or `-`. Of a row's current symbols only the one at the node's place is looked at.
    /// (Liberty Reference Manual, `statetable` group.)
    pub fn step(&self, node: usize, before: &[bool], after: &[bool], s: bool) -> Option<bool>
        requires node_exists { node < self.now.nodes }
        requires one_before { length before.now ≡ self.now.inputs }
        requires one_after { length after.now ≡ self.now.inputs }
        requires widths { IsRectangular self.now }
        ensures { result ≡ table_step self.now node before.now after.now s }
    {
        for row in self.rows.as_slice() {
            if row.matches(node, before, after, s) {
                return row.gives(node, s);
            }
        }
        None
    }
}

/// Whether each input matches its symbol.
fn inputs_match(symbols: &[InSymbol], before: &[bool], after: &[bool]) -> bool
    requires one_before { length before.now ≡ length symbols.now }
    requires one_after { length after.now ≡ length symbols.now }
    ensures { result ≡ inputs_match_of symbols.now before.now after.now }
{
    for i in 0..symbols.len() {
        if !symbols[i].matches(before[i], after[i]) {
            return false;
        }
    }
    true
}
