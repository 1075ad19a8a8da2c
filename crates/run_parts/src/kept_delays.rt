//! The delays of paths, kept from one change to the next for each input and output between which the paths lead.
ghost use Rattle.std.specs.Prelude.{◌≡◌, ℕ, ◌<◌, List, Some, false, IfOk};
ghost use Rattle.cell_machine.specs.Delay.{Path, least_delay};
ghost use Rattle.run_parts.specs.KeptDelays.{AreKept, AreFound};
ghost use Rattle.trit_cubes.specs.declared.trits.Trit.{Trit as TritOf};

use crate::delay_places::{DelayPlaces, place_count};
use crate::kept_delay::KeptDelay;
use crate::output_change::OutputChange;
use crate::written_lists::put;
use cell_machine::is_rise;
use sqlite_items::{Items, at};
use std::alloc::{AllocError, Global};

/// The delays of a model's paths as far as they are kept: the least rises and the least falls.
#[derive(Drop)]
pub struct KeptDelays {
    /// The least rises.
    pub rises: Items<KeptDelay>,
    /// The least falls.
    pub falls: Items<KeptDelay>,
    /// How often all was forgotten; there as long as it can be counted. What was found earlier does not hold any more.
    pub turn: Option<u64>,
}

/// So many places without a delay.
fn unknown_delays(alloc: Global, count: usize) -> Result<Items<KeptDelay>, AllocError>
    ensures { IfOk result (λ all. (a b : TritOf) (paths : ℕ → ℕ → List Path) → AreFound a b paths (Some 1) all) }
{
    let none = KeptDelay {
        input: 0,
        output: 0,
        turn: 0,
        delay: 0,
    };
    let all = vec![in alloc; none; count]?;
    Ok(Items::from_vec(all))
}

impl KeptDelays {
    /// No delay, with these places for delays. `AllocError` comes only where memory is wanted and not there.
    pub fn none(alloc: Global, rows: &[DelayPlaces]) -> Result<KeptDelays, AllocError>
        ensures { IfOk result (λ kept. (paths : ℕ → ℕ → List Path) → AreKept paths kept) }
    {
        let count = place_count(rows);
        let rises = unknown_delays(alloc, count)?;
        let falls = unknown_delays(alloc, count)?;
        Ok(KeptDelays {
            rises,
            falls,
            turn: Some(1),
        })
    }

    /// The delay of a change of the output with this number, where it is kept at this place.
    pub fn known(&self, place: usize, output: usize, change: OutputChange) -> Option<u64>
        ensures { (paths : ℕ → ℕ → List Path) (delay : ℕ) → AreKept paths self.now → result ≡ Some delay
            → delay ≡ least_delay change.from change.to (paths output change.input) }
    {
        if is_rise(change.from, change.to) {
            known_in(
                self.rises.as_slice(),
                self.turn,
                place,
                output,
                change.input,
            )
        } else {
            known_in(
                self.falls.as_slice(),
                self.turn,
                place,
                output,
                change.input,
            )
        }
    }

    /// Keeps the delay of a change of the output with this number at this place.
    pub fn keep(&mut self, place: usize, output: usize, change: OutputChange, delay: u64)
        ensures { (paths : ℕ → ℕ → List Path) → AreKept paths self.old
            → delay ≡ least_delay change.from change.to (paths output change.input) → AreKept paths self.new }
    {
        let input = change.input;
        if is_rise(change.from, change.to) {
            keep_in(&mut self.rises, self.turn, place, output, input, delay);
        } else {
            keep_in(&mut self.falls, self.turn, place, output, input, delay);
        }
    }

    /// Forgets all delays where the gate of some path changed between 0 and not 0.
    pub fn forget_where(&mut self, changed: bool)
        ensures { (before now : ℕ → ℕ → List Path) → AreKept before self.old
            → (changed ≡ false → (output input : ℕ) → before output input ≡ now output input) → AreKept now self.new }
    {
        if changed {
            self.turn = later(self.turn);
        }
    }
}

/// The turn after one.
fn later(turn: Option<u64>) -> Option<u64>
    ensures { (next : ℕ) → result ≡ Some next → (before : ℕ) × (turn ≡ Some before) × (before < next) }
{
    match turn {
        Some(turn) => turn.checked_add(1),
        None => None,
    }
}

/// A delay where it was found at this turn, for this output and this input.
fn delay_of(found: &KeptDelay, turn: Option<u64>, output: usize, input: usize) -> Option<u64>
    ensures turn { (delay : ℕ) → result ≡ Some delay → turn ≡ Some found.now.turn }
    ensures output { (delay : ℕ) → result ≡ Some delay → found.now.output ≡ output }
    ensures input { (delay : ℕ) → result ≡ Some delay → found.now.input ≡ input }
    ensures delay { (delay : ℕ) → result ≡ Some delay → found.now.delay ≡ delay }
{
    let turn = turn?;
    if found.turn == turn && found.output == output && found.input == input {
        Some(found.delay)
    } else {
        None
    }
}

/// The delay at this place, where it is of this output and this input.
fn known_in(
    all: &[KeptDelay],
    turn: Option<u64>,
    place: usize,
    output: usize,
    input: usize,
) -> Option<u64>
    ensures { (a b : TritOf) (paths : ℕ → ℕ → List Path) (delay : ℕ) → AreFound a b paths turn all.now → result ≡ Some delay
        → delay ≡ least_delay a b (paths output input) }
{
    match at(all, place) {
        Some(found) => delay_of(found, turn, output, input),
        None => None,
    }
}

/// Keeps a delay of this output and this input at this place, where the turn can still be counted.
fn keep_in(
    all: &mut Items<KeptDelay>,
    turn: Option<u64>,
    place: usize,
    output: usize,
    input: usize,
    delay: u64,
)
    ensures { (a b : TritOf) (paths : ℕ → ℕ → List Path) → AreFound a b paths turn all.old
        → delay ≡ least_delay a b (paths output input) → AreFound a b paths turn all.new }
{
    let Some(turn) = turn else {
        return;
    };
    let found = KeptDelay {
        input,
        output,
        turn,
        delay,
    };
    put(all, place, found);
}
