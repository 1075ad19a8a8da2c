//! The delay of an output's change: the least over the active arcs.
ghost use Rattle.std.specs.Prelude.{◌≡◌, ◌<◌, ℕ, length, slice_get, None, Some};
ghost use Rattle.std.specs.List.{list_all};
ghost use Rattle.cell_machine.specs.declared.arcs.Arc.{Arc as ArcOf};
ghost use Rattle.cell_machine.specs.Delay.{lesser, least_delay};
ghost use Rattle.cell_machine.specs.Places.{entries_at, AreBelow};
ghost use Rattle.cell_machine.specs.ArcDelay.{arc_delays, least_delays as least_delays_of, delay_by, lesser_delays};
ghost use Rattle.cell_machine.specs.ArcPlaces.{arcs_between};
ghost use Rattle.cell_machine.specs.CellData.{data_of};
ghost use Rattle.cell_machine.specs.CellTrace.{arc_names, is_active, paths_between, is_quiet};
ghost use Rattle.cell_machine.specs.Outputs.{is_zero};
ghost use Rattle.cell_machine.specs.KeptConditions.{AreConditions};
ghost use Rattle.cell_machine.specs.KeptArcs.{IsPair, AreKeptArcs};

use crate::arcs::Arc;
use crate::edges::is_rise;
use crate::kept_arcs::KeptArcs;
use crate::kept_conditions::{InputArcs, kept_condition};
use sqlite_items::Items;
use trit_cubes::Trit;

/// The lesser of two numbers, of which each may be absent.
pub fn lesser(left: Option<u64>, right: Option<u64>) -> Option<u64>
    ensures { result ≡ lesser left right }
{
    let Some(left) = left else {
        return right;
    };
    match right {
        Some(right) => Some(left.min(right)),
        None => Some(left),
    }
}

/// The delays that arcs give, in picoseconds, there where one is active.
#[derive(Clone, Copy)]
pub struct Delays {
    /// Of a possible rise.
    pub rise: Option<u64>,
    /// Of another change.
    pub fall: Option<u64>,
}

impl Delays {
    /// Those of no active arc.
    fn none() -> Delays
        ensures { result ≡ record { rise = None; fall = None } }
    {
        Delays {
            rise: None,
            fall: None,
        }
    }

    /// The lesser ones of two.
    fn lesser(self, other: Delays) -> Delays
        ensures { result ≡ lesser_delays self other }
    {
        Delays {
            rise: lesser(self.rise, other.rise),
            fall: lesser(self.fall, other.fall),
        }
    }

    /// The delay of a change from one value to another, 0 where no arc is active.
    pub fn of(&self, from: Trit, to: Trit) -> u64
        ensures { result ≡ delay_by from to self.now }
    {
        let delay = if is_rise(from, to) {
            self.rise
        } else {
            self.fall
        };
        delay.unwrap_or(0)
    }
}

/// Whether another arc leaves an arc without condition active: it has other pins, or its condition is 0.
#[tactic(auto, using(crate::proofs::KeptValues::off_is_zero))]
fn is_quiet(arcs: &InputArcs, arc: &Arc, i: usize, kept: &mut Items<Option<Trit>>) -> bool
    requires names { arcs.now.names.now ≡ arc_names (data_of arcs.now.cell.now) }
    requires inside { i < length arcs.now.cell.now.arcs }
    requires kept { AreConditions arcs.now.cell.now.pins arcs.now.inputs.now arcs.now.cell.now.arcs kept.old }
    ensures quiet { (other : ArcOf) → slice_get arcs.now.cell.now.arcs i ≡ Some other
        → result ≡ is_quiet arcs.now.cell.now.pins arcs.now.inputs.now arc.now other }
    ensures kept { AreConditions arcs.now.cell.now.pins arcs.now.inputs.now arcs.now.cell.now.arcs kept.new }
{
    if !arc.same_pins(arcs.cell.arc(i)) {
        return true;
    }
    is_zero(kept_condition(arcs, i, kept))
}

/// Whether a value is 0.
fn is_zero(value: Trit) -> bool
    ensures { result ≡ is_zero value }
{
    value == Trit::Zero
}

/// Whether all arcs with these numbers leave an arc without condition active.
fn all_are_quiet(
    arcs: &InputArcs,
    places: &[usize],
    arc: &Arc,
    kept: &mut Items<Option<Trit>>,
) -> bool
    requires names { arcs.now.names.now ≡ arc_names (data_of arcs.now.cell.now) }
    requires below { AreBelow (length arcs.now.cell.now.arcs) places.now }
    requires kept { AreConditions arcs.now.cell.now.pins arcs.now.inputs.now arcs.now.cell.now.arcs kept.old }
    ensures quiet { result ≡ list_all (is_quiet arcs.now.cell.now.pins arcs.now.inputs.now arc.now)
        (entries_at arcs.now.cell.now.arcs places.now) }
    ensures kept { AreConditions arcs.now.cell.now.pins arcs.now.inputs.now arcs.now.cell.now.arcs kept.new }
{
    for i in 0..places.len() {
        if !is_quiet(arcs, arc, places[i], kept) {
            return false;
        }
    }
    true
}

/// Whether an arc is active among those with these numbers.
fn is_active(arcs: &InputArcs, places: &[usize], i: usize, kept: &mut Items<Option<Trit>>) -> bool
    requires names { arcs.now.names.now ≡ arc_names (data_of arcs.now.cell.now) }
    requires below { AreBelow (length arcs.now.cell.now.arcs) places.now }
    requires inside { i < length arcs.now.cell.now.arcs }
    requires kept { AreConditions arcs.now.cell.now.pins arcs.now.inputs.now arcs.now.cell.now.arcs kept.old }
    ensures active { (arc : ArcOf) → slice_get arcs.now.cell.now.arcs i ≡ Some arc
        → result ≡ is_active arcs.now.cell.now.pins (entries_at arcs.now.cell.now.arcs places.now) arcs.now.inputs.now arc
        arc.condition }
    ensures kept { AreConditions arcs.now.cell.now.pins arcs.now.inputs.now arcs.now.cell.now.arcs kept.new }
{
    let arc = arcs.cell.arc(i);
    match &arc.condition {
        Some(_) => !is_zero(kept_condition(arcs, i, kept)),
        None => all_are_quiet(arcs, places, arc, kept),
    }
}

/// The delays of an arc among those with these numbers.
fn arc_delays(
    arcs: &InputArcs,
    places: &[usize],
    i: usize,
    kept: &mut Items<Option<Trit>>,
) -> Delays
    requires names { arcs.now.names.now ≡ arc_names (data_of arcs.now.cell.now) }
    requires below { AreBelow (length arcs.now.cell.now.arcs) places.now }
    requires inside { i < length arcs.now.cell.now.arcs }
    requires kept { AreConditions arcs.now.cell.now.pins arcs.now.inputs.now arcs.now.cell.now.arcs kept.old }
    ensures delays { (arc : ArcOf) → slice_get arcs.now.cell.now.arcs i ≡ Some arc
        → result ≡ arc_delays arcs.now.cell.now.pins (entries_at arcs.now.cell.now.arcs places.now) arcs.now.inputs.now arc }
    ensures kept { AreConditions arcs.now.cell.now.pins arcs.now.inputs.now arcs.now.cell.now.arcs kept.new }
{
    if !is_active(arcs, places, i, kept) {
        return Delays::none();
    }
    let arc = arcs.cell.arc(i);
    Delays {
        rise: Some(arc.rise),
        fall: Some(arc.fall),
    }
}

/// The least delays of the arcs with these numbers.
fn least_delays(arcs: &InputArcs, places: &[usize], kept: &mut Items<Option<Trit>>) -> Delays
    requires names { arcs.now.names.now ≡ arc_names (data_of arcs.now.cell.now) }
    requires below { AreBelow (length arcs.now.cell.now.arcs) places.now }
    requires kept { AreConditions arcs.now.cell.now.pins arcs.now.inputs.now arcs.now.cell.now.arcs kept.old }
    ensures delays { result ≡ least_delays_of arcs.now.cell.now.pins (entries_at arcs.now.cell.now.arcs places.now)
        arcs.now.inputs.now }
    ensures kept { AreConditions arcs.now.cell.now.pins arcs.now.inputs.now arcs.now.cell.now.arcs kept.new }
{
    let mut best = Delays::none();
    for i in 0..places.len() {
        best = best.lesser(arc_delays(arcs, places, places[i], kept));
    }
    best
}

/// The same, of two pins whose first arc has the number `first`. They are found where none are kept, and then kept.
fn kept_delays(arcs: &InputArcs, places: &[usize], first: usize, kept: &mut KeptArcs) -> Delays
    requires names { arcs.now.names.now ≡ arc_names (data_of arcs.now.cell.now) }
    requires pair { IsPair (data_of arcs.now.cell.now) places.now }
    requires first { slice_get places.now 0 ≡ Some first }
    requires inside { first < length arcs.now.cell.now.arcs }
    requires kept { AreKeptArcs (data_of arcs.now.cell.now) arcs.now.inputs.now kept.old }
    ensures delays { result ≡ least_delays_of arcs.now.cell.now.pins (entries_at arcs.now.cell.now.arcs places.now)
        arcs.now.inputs.now }
    ensures kept { AreKeptArcs (data_of arcs.now.cell.now) arcs.now.inputs.now kept.new }
{
    if let Some(delays) = kept.delays.as_slice()[first] {
        return delays;
    }
    let delays = least_delays(arcs, places, &mut kept.conditions);
    kept.delays.set(first, Some(delays));
    delays
}

/// The delay of a change of an output from one value to another: the least over the active arcs with these numbers, 0 where none
/// is active. `kept` is what is kept of the arcs.
pub fn least_delay(
    arcs: &InputArcs,
    places: &[usize],
    kept: &mut KeptArcs,
    from: Trit,
    to: Trit,
) -> u64
    requires names { arcs.now.names.now ≡ arc_names (data_of arcs.now.cell.now) }
    requires pair { IsPair (data_of arcs.now.cell.now) places.now }
    requires kept { AreKeptArcs (data_of arcs.now.cell.now) arcs.now.inputs.now kept.old }
    ensures delay { (input pin : ℕ) → places.now ≡ arcs_between (data_of arcs.now.cell.now) input pin
        → result ≡ least_delay from to (paths_between arcs.now.cell.now.pins arcs.now.cell.now.arcs arcs.now.inputs.now input
        pin) }
    ensures kept { AreKeptArcs (data_of arcs.now.cell.now) arcs.now.inputs.now kept.new }
{
    match places.first() {
        Some(first) => kept_delays(arcs, places, *first, kept).of(from, to),
        None => 0,
    }
}
