//! The step of a node of a state table at each change of at most one place of its support, kept without memory of the heap.
ghost use Rattle.std.specs.Prelude.{◌≡◌, ℕ, ◌*◌, ◌≤◌, ◌<◌, Some, length, slice_get};
ghost use Rattle.statetables.specs.declared.lanes.StepWords.{StepWords as WordsOf};
ghost use Rattle.step_tables.specs.NodeSteps.{blocks, TellChange};

use crate::node_words::{TableNode, block_words, word_count};
use cell_machine::Few;
use statetables::StepWords;

/// The changes to a point: of each of eight places and of none, from either state.
pub const CHANGES: usize = 18;

/// The words of all changes to the points of eight places.
const MOST_WORDS: usize = 72;

/// The words of all changes to 64 points, and then of those to the 64 points behind them. At each place state 0 comes first.
pub type ChangeWords = Few<StepWords, MOST_WORDS>;

/// The word with this number.
fn word_at(node: TableNode<'_>, number: usize) -> StepWords
    requires few { length node.support.now ≤ 8 }
    requires inputs { length node.inputs.now ≤ 64 }
    ensures { TellChange node.entry.table.now node.entry.node node.entry.inputs.now node.entry.support.now number result }
{
    block_words(
        node,
        number % CHANGES / 2,
        number % 2 == 1,
        number / CHANGES,
    )
}

/// The words of a node over all points of its support.
pub fn change_words(node: TableNode<'_>) -> ChangeWords
    requires few { length node.support.now ≤ 8 }
    requires inputs { length node.inputs.now ≤ 64 }
    ensures all { length result ≡ 18 * blocks (length node.entry.support.now) }
    ensures each { (j : ℕ) (w : WordsOf) → slice_get result j ≡ Some w
        → TellChange node.entry.table.now node.entry.node node.entry.inputs.now node.entry.support.now j w }
{
    let mut words = Few::new(word_at(node, 0));
    for number in 0..CHANGES * word_count(node.support.len()) {
        words.push(word_at(node, number));
    }
    words
}
