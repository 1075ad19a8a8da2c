//! The step of a node of a state table at changes of one input, at 64 points at once.
ghost use Rattle.std.specs.Prelude.{◌≡◌, ◌≤◌, ◌<◌, ◌*◌, None, ℕ, length, map};
ghost use Rattle.cell_machine.specs.Step.{trit_or_unknown as trit_or_unknown_of};
ghost use Rattle.statetables.specs.Lanes.{lane, found_at};
ghost use Rattle.step_tables.specs.Turned.{turned};
ghost use Rattle.step_tables.specs.NodeSteps.{blocks, node_next, next_at, TellFrom};

use crate::input_words::{POINTS, input_words, place_words, turned_words, word_of_all};
use statetables::{StateTable, StepWords};
use trit_cubes::Trit;

/// A node of a state table over the pins of its support.
#[derive(Clone, Copy)]
pub struct TableNode<'a> {
    /// The table.
    pub table: &'a StateTable,
    /// The node's number among the table's nodes.
    pub node: usize,
    /// For each input of the table the number of its pin.
    pub inputs: &'a [usize],
    /// The numbers of the pins of the node's support.
    pub support: &'a [usize],
}

/// How many words the points of so many places take.
pub fn word_count(places: usize) -> usize
    requires { places ≤ 8 }
    ensures is { result ≡ blocks places }
    ensures few { result ≤ 4 }
{
    ((1 << places) + (POINTS - 1)) / POINTS
}

/// What is found of a node at changes of a place from a state to 64 points, at which the places of the node's support have these
/// words.
pub fn step_words(node: TableNode<'_>, place: usize, state: bool, after: &[u64]) -> StepWords
    requires few { length after.now ≤ 8 }
    requires inputs { length node.inputs.now ≤ 64 }
    ensures { (k : ℕ) → k < 64 → found_at k result None ≡ node_next node.entry.table.now node.entry.node node.entry.inputs.now
        node.entry.support.now (turned place (map (lane k) after.now)) (map (lane k) after.now) state }
{
    let before = turned_words(place, after);
    let inputs = input_words(node.inputs, node.support, before.as_slice(), after);
    node.table
        .step_words(node.node, inputs.as_slice(), word_of_all(state))
}

/// The same at the points of the support of which so many times 64 stand before.
pub fn block_words(node: TableNode<'_>, place: usize, state: bool, block: usize) -> StepWords
    requires few { length node.support.now ≤ 8 }
    requires inputs { length node.inputs.now ≤ 64 }
    ensures { TellFrom (next_at node.entry.table.now node.entry.node node.entry.inputs.now node.entry.support.now place state)
        (64 * block) result }
{
    let after = place_words(node.support.len(), block);
    step_words(node, place, state, after.as_slice())
}

/// A next state as a trit.
pub fn trit_or_unknown(next: Option<bool>) -> Trit
    ensures { result ≡ trit_or_unknown_of next }
{
    match next {
        Some(next) => Trit::from(next),
        None => Trit::Unknown,
    }
}
