//! What a flip-flop or a latch does at the points of its support, by whether its clock rises there.
ghost use Rattle.std.specs.Prelude.{◌≡◌, ℕ, ◌<◌, ◌≤◌, ◌^◌, false, not, ◌&&◌, length, if◌then◌else◌};
ghost use Rattle.trit_cubes.specs.Sets.{point_of as point_with};
ghost use Rattle.cell_machine.specs.CellData.{data_of};
ghost use Rattle.cell_machine.specs.CellTrace.{support_at};
ghost use Rattle.step_tables.specs.GroupPoints.{clock_at as clock_at_point, steps_between as steps_between_points};
ghost use Rattle.step_tables.specs.GroupPoints.{point_at, points_from, MovesByClock, ArePoints};

use crate::points::{MOST_PLACES, point_count, point_of};
use cell_machine::{Cell, Few, GroupKind, Values, boolean_step};
use trit_cubes::Trit;

/// The most points of a support: those of eight places.
pub const MOST_POINTS: usize = 256;

/// What a group does from both states.
#[derive(Clone, Copy)]
pub struct StateSteps {
    /// From state 0.
    pub zero: Trit,
    /// From state 1.
    pub one: Trit,
}

impl StateSteps {
    /// What the group does from neither state, so far.
    const BLANK: StateSteps = StateSteps {
        zero: Trit::Unknown,
        one: Trit::Unknown,
    };
}

/// What a group does at changes to a point.
#[derive(Clone, Copy)]
pub struct GroupPoint {
    /// Whether its clock is 1 there.
    pub clock: bool,
    /// Its steps where the clock does not rise.
    pub held: StateSteps,
    /// Its steps where the clock rises.
    pub risen: StateSteps,
}

impl GroupPoint {
    /// The steps at a change from another point.
    pub fn steps_from(self, before: GroupPoint) -> StateSteps
        ensures { result ≡ (if not before.clock && self.clock then self.risen else self.held) }
    {
        if !before.clock && self.clock {
            self.risen
        } else {
            self.held
        }
    }
}

/// What a group does at changes to each point of its support, by the numbers of the points.
pub type GroupPoints = Few<GroupPoint, MOST_POINTS>;

/// Whether the clock of a group is 1 at a point of its support. A latch and a node of a state table have none.
fn clock_at(cell: &Cell, group: usize, point: &[bool]) -> bool
    requires group { group < length cell.now.groups }
    requires point { length point.now ≡ length (support_at (data_of cell.now) group) }
    ensures { result ≡ clock_at_point (data_of cell.now) group point.now }
{
    let group = cell.group(group);
    match &group.kind {
        GroupKind::Ff(kind) => {
            let values = Values::new().written(group.support.as_slice(), point);
            values.value(&kind.clocked_on)
        }
        GroupKind::Latch(_) | GroupKind::Table { .. } => false,
    }
}

/// The steps of a group at a change between two points of its support.
pub fn steps_between(cell: &Cell, group: usize, before: &[bool], after: &[bool]) -> StateSteps
    requires group { group < length cell.now.groups }
    requires before { length before.now ≡ length (support_at (data_of cell.now) group) }
    requires after { length after.now ≡ length (support_at (data_of cell.now) group) }
    ensures { result ≡ steps_between_points (data_of cell.now) group before.now after.now }
{
    StateSteps {
        zero: boolean_step(cell, group, before, after, false),
        one: boolean_step(cell, group, before, after, true),
    }
}

/// The number of the first point at which the clock of a group is 0, where there is one.
fn low_point(cell: &Cell, group: usize, places: usize) -> usize
    requires group { group < length cell.now.groups }
    requires places { places ≡ length (support_at (data_of cell.now) group) }
    requires few { places ≤ 8 }
    ensures { (k : ℕ) → k < 2 ^ places → clock_at_point (data_of cell.now) group (point_with places k) ≡ false
        → clock_at_point (data_of cell.now) group (point_with places result) ≡ false }
{
    for number in 0..point_count(places) {
        let point = point_of::<MOST_PLACES>(places, number);
        if !clock_at(cell, group, point.as_slice()) {
            return number;
        }
    }
    0
}

/// The steps of a group where its clock rises to a point from one at which it is 0; where the clock is 0 at that point too, those
/// that it has where nothing changes.
fn risen_steps(
    cell: &Cell,
    group: usize,
    low: &[bool],
    point: &[bool],
    clock: bool,
    held: StateSteps,
) -> StateSteps
    requires group { group < length cell.now.groups }
    requires low { length low.now ≡ length (support_at (data_of cell.now) group) }
    requires point { length point.now ≡ length (support_at (data_of cell.now) group) }
    requires moves { MovesByClock (data_of cell.now) group }
    requires clock { clock ≡ clock_at_point (data_of cell.now) group point.now }
    requires held { held ≡ steps_between_points (data_of cell.now) group point.now point.now }
    ensures { result ≡ steps_between_points (data_of cell.now) group low.now point.now }
{
    if clock {
        steps_between(cell, group, low, point)
    } else {
        held
    }
}

/// What a group does at changes to a point, where its clock is 0 at another one if anywhere.
fn group_point(cell: &Cell, group: usize, low: &[bool], point: &[bool]) -> GroupPoint
    requires group { group < length cell.now.groups }
    requires low { length low.now ≡ length (support_at (data_of cell.now) group) }
    requires point { length point.now ≡ length (support_at (data_of cell.now) group) }
    requires moves { MovesByClock (data_of cell.now) group }
    ensures { result ≡ point_at (data_of cell.now) group low.now point.now }
{
    let clock = clock_at(cell, group, point);
    let held = steps_between(cell, group, point, point);
    let risen = risen_steps(cell, group, low, point, clock, held);
    GroupPoint { clock, held, risen }
}

/// What a group does at changes to each point of so many places, where its clock is 0 at the point with this number if anywhere.
fn points_by(cell: &Cell, group: usize, places: usize, low: usize) -> GroupPoints
    requires group { group < length cell.now.groups }
    requires places { places ≡ length (support_at (data_of cell.now) group) }
    requires few { places ≤ 8 }
    requires moves { MovesByClock (data_of cell.now) group }
    ensures { result ≡ points_from (data_of cell.now) group places low }
{
    let low = point_of::<MOST_PLACES>(places, low);
    let mut points = Few::new(GroupPoint {
        clock: false,
        held: StateSteps::BLANK,
        risen: StateSteps::BLANK,
    });
    for number in 0..point_count(places) {
        let point = point_of::<MOST_PLACES>(places, number);
        points.push(group_point(cell, group, low.as_slice(), point.as_slice()));
    }
    points
}

/// What a group does at changes to each point of its support, which has so many places.
pub fn group_points(cell: &Cell, group: usize, places: usize) -> GroupPoints
    requires group { group < length cell.now.groups }
    requires places { places ≡ length (support_at (data_of cell.now) group) }
    requires few { places ≤ 8 }
    requires moves { MovesByClock (data_of cell.now) group }
    ensures { ArePoints (data_of cell.now) group places result }
{
    let low = low_point(cell, group, places);
    points_by(cell, group, places, low)
}
