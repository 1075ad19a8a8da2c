//! The steps of a group at points.
ghost use Rattle.std.specs.Prelude.{◌≡◌, ℕ, ◌<◌, ◌≤◌, suc, length, if◌then◌else◌};
ghost use Rattle.trit_cubes.specs.Sets.{point_of};
ghost use Rattle.cell_machine.specs.Machine.{insert, edge_value, forced_at};
ghost use Rattle.cell_machine.specs.CellData.{data_of};
ghost use Rattle.cell_machine.specs.CellTrace.{support_at, step_at};

use cell_machine::{Cell, forced};
use step_tables::{StepTable, point_count};
use trit_cubes::Trit;

/// The most inputs of a group.
const MOST_INPUTS: usize = 8;

/// The value to which each change to this point and no change force the state of a group, else unknown. The point has a value for
/// each of its pins, in order; for any other list the answer says nothing. It takes no memory.
pub fn forced_at(cell: &Cell, group: usize, point: &[bool]) -> Trit
    requires { group < length cell.now.groups }
    ensures { length point.now ≡ length (support_at (data_of cell.now) group)
        → result ≡ forced_at (step_at (data_of cell.now) group) point.now }
{
    let pins = cell.group(group).support.len();
    if point.len() != pins {
        return Trit::Unknown;
    }
    forced_value(cell, group, point)
}

/// The value to which a point forces the state of a group.
fn forced_value(cell: &Cell, group: usize, point: &[bool]) -> Trit
    requires group { group < length cell.now.groups }
    requires point { length point.now ≡ length (support_at (data_of cell.now) group) }
    requires few { length point.now ≤ 8 }
    ensures { result ≡ forced_at (step_at (data_of cell.now) group) point.now }
{
    let mut trits = [Trit::Unknown; MOST_INPUTS];
    for i in 0..point.len() {
        trits[i] = Trit::from(point[i]);
    }
    forced(cell, group, &trits[..point.len()])
}

/// What a value at a place that weighs so much adds to the number of a point.
fn weighed(value: bool, weight: usize) -> usize
    ensures { result ≡ (if value then weight else 0) }
{
    if value { weight } else { 0 }
}

/// The number of the point that this value, put in at a place of the point with the number `others`, makes. Place i of a
/// point weighs 2 to the power i.
fn inserted(place: usize, value: bool, others: usize) -> usize
    requires place { place ≤ 8 }
    requires others { others < 256 }
    ensures { (n : ℕ) → place ≤ n → point_of (suc n) result ≡ insert place value (point_of n others) }
{
    let weight = point_count(place);
    2 * others + weighed(value, weight) - others % weight
}

/// What the step of a group gives at a change of the input at `place`, at the point with this number of the value before, the
/// value after, the other inputs and the state.
pub(crate) fn value_at(steps: &StepTable<'_>, place: usize, number: usize) -> Trit
    requires place { place < steps.now.places }
    requires number { number < 1024 }
    ensures { result ≡ edge_value (step_at (data_of steps.now.cell.now) steps.now.group) place
        (point_of (suc (suc steps.now.places)) number) }
{
    let new = number / 2 % 2;
    let points = point_count(steps.places);
    let joint = inserted(place, new == 1, number / 4);
    let state = joint / points % 2 == 1;
    if number % 2 == new {
        return steps.turned(steps.places, joint % points, state);
    }
    steps.turned(place, joint % points, state)
}
