//! The steps of a group at changes between points of its support.
ghost use Rattle.std.specs.Prelude.{◌≡◌, ℕ, ◌≤◌, ◌<◌, ◌^◌, length};
ghost use Rattle.trit_cubes.specs.Filling.{bit};
ghost use Rattle.trit_cubes.specs.Sets.{point_of as point_with};
ghost use Rattle.cell_machine.specs.Machine.{forced_at};
ghost use Rattle.cell_machine.specs.CellData.{data_of};
ghost use Rattle.cell_machine.specs.CellTrace.{support_at, step_at};
ghost use Rattle.step_tables.specs.Turned.{turned as turned_point, both_steps};
ghost use Rattle.step_tables.specs.GroupPoints.{steps_between as steps_between_points, numbered_steps, ArePoints};
ghost use Rattle.step_tables.specs.Kept.{TellSteps, IsKept};

use crate::changes::{CHANGES, ChangeWords, change_words};
use crate::group_points::{GroupPoint, GroupPoints, StateSteps, group_points, steps_between};
use crate::input_words::{MOST_INPUTS, POINTS};
use crate::node_words::{TableNode, trit_or_unknown};
use crate::points::{MOST_PLACES, changed_place, point_of, turned};
use cell_machine::{Cell, GroupKind};
use statetables::StepWords;
use trit_cubes::Trit;

/// What is kept of a group.
#[derive(Drop)]
pub enum Kept {
    /// What a flip-flop or a latch does at changes to each point of its support.
    Points(GroupPoints),
    /// The steps of a node of a state table at changes of at most one place.
    Words(ChangeWords),
    /// Nothing, of a node of a table with more inputs than a change's words are made for.
    Nothing,
}

/// The step of a group of a cell, tabled. It takes no memory of the heap.
#[derive(Drop)]
pub struct StepTable<'a> {
    /// The cell.
    pub cell: &'a Cell,
    /// The number of the group.
    pub group: usize,
    /// How many places its support has.
    pub places: usize,
    kept: Kept,
    ghost inside: { group < length cell.now.groups },
    pub ghost are_places: { places ≡ length (support_at (data_of cell.now) group) },
    pub ghost few: { places ≤ 8 },
    ghost is_kept: { IsKept (data_of cell.now) group places kept },
}

/// What is kept of a group whose support has so many places.
fn kept_of(cell: &Cell, group: usize, places: usize) -> Kept
    requires group { group < length cell.now.groups }
    requires places { places ≡ length (support_at (data_of cell.now) group) }
    requires few { places ≤ 8 }
    ensures { IsKept (data_of cell.now) group places result }
{
    let entry = cell.group(group);
    match &entry.kind {
        GroupKind::Ff(_) => Kept::Points(group_points(cell, group, places)),
        GroupKind::Latch(_) => Kept::Points(group_points(cell, group, places)),
        GroupKind::Table { inputs, .. } if inputs.len() > MOST_INPUTS => Kept::Nothing,
        GroupKind::Table {
            table,
            node,
            inputs,
        } => Kept::Words(change_words(TableNode {
            table: table.get(),
            node: *node,
            inputs: inputs.as_slice(),
            support: entry.support.as_slice(),
        })),
    }
}

/// The number of a state.
fn state_number(state: bool) -> usize
    ensures { result ≡ bit state }
{
    if state { 1 } else { 0 }
}

impl<'a> StepTable<'a> {
    /// The table of the group with this number.
    pub fn of(cell: &'a Cell, group: usize) -> StepTable<'a>
        requires { group < length cell.now.groups }
        ensures cell { result.cell.now ≡ cell.now }
        ensures group { result.group ≡ group }
    {
        let places = cell.group(group).support.len();
        let kept = kept_of(cell, group, places);
        StepTable {
            cell,
            group,
            places,
            kept,
        }
    }

    /// The steps that these points tell.
    fn moved(&self, points: &[GroupPoint], before: usize, after: usize) -> StateSteps
        requires points { ArePoints (data_of self.now.cell.now) self.now.group self.now.places points.now }
        requires before { before < 2 ^ self.now.places }
        requires after { after < 2 ^ self.now.places }
        ensures { result ≡ numbered_steps (data_of self.now.cell.now) self.now.group self.now.places before after }
    {
        points[after].steps_from(points[before])
    }

    /// The state that follows this one at a change of this place, which these words tell.
    fn next_state(&self, words: &[StepWords], place: usize, after: usize, state: bool) -> Trit
        requires words { TellSteps (data_of self.now.cell.now) self.now.group self.now.places words.now }
        requires place { place < 9 }
        requires after { after < 2 ^ self.now.places }
        ensures { result ≡ step_at (data_of self.now.cell.now) self.now.group
            (turned_point place (point_with self.now.places after)) (point_with self.now.places after) state }
    {
        let number = CHANGES * (after / POINTS) + 2 * place + state_number(state);
        let word = words[number];
        trit_or_unknown(word.at(after % POINTS))
    }

    /// The steps of the group, which its texts or its table give.
    fn stepped(&self, before: usize, after: usize) -> StateSteps
        ensures { result ≡ numbered_steps (data_of self.now.cell.now) self.now.group self.now.places before after }
    {
        let before = point_of::<MOST_PLACES>(self.places, before);
        let after = point_of::<MOST_PLACES>(self.places, after);
        steps_between(self.cell, self.group, before.as_slice(), after.as_slice())
    }

    /// The steps that these words tell where at most one place changes, else those that the table gives.
    fn looked_up(&self, words: &[StepWords], before: usize, after: usize) -> StateSteps
        requires words { TellSteps (data_of self.now.cell.now) self.now.group self.now.places words.now }
        requires before { before < 2 ^ self.now.places }
        requires after { after < 2 ^ self.now.places }
        ensures { result ≡ numbered_steps (data_of self.now.cell.now) self.now.group self.now.places before after }
    {
        match changed_place(self.places, before, after) {
            Some(place) => StateSteps {
                zero: self.next_state(words, place, after, false),
                one: self.next_state(words, place, after, true),
            },
            None => self.stepped(before, after),
        }
    }

    /// The steps of the group at a change between the points with these numbers. Place i of a point weighs 2 to the power i.
    pub fn steps(&self, before: usize, after: usize) -> StateSteps
        requires before { before < 2 ^ self.now.places }
        requires after { after < 2 ^ self.now.places }
        ensures { result ≡ steps_between_points (data_of self.now.cell.now) self.now.group (point_with self.now.places before)
            (point_with self.now.places after) }
    {
        match &self.kept {
            Kept::Points(points) => self.moved(points.as_slice(), before, after),
            Kept::Words(words) => self.looked_up(words.as_slice(), before, after),
            Kept::Nothing => self.stepped(before, after),
        }
    }

    /// The next states at a change of this place of the support to the point with this number; where there is no such place,
    /// those where nothing changes.
    fn turned_steps(&self, place: usize, after: usize) -> StateSteps
        requires { after < 2 ^ self.now.places }
        ensures { result ≡ steps_between_points (data_of self.now.cell.now) self.now.group
            (turned_point place (point_with self.now.places after)) (point_with self.now.places after) }
    {
        let before = turned(self.places, place, after);
        self.steps(before, after)
    }

    /// The next state at a change of this place of the support to the point with this number, from a state; where there is no
    /// such place, the next state where nothing changes.
    pub fn turned(&self, place: usize, after: usize, state: bool) -> Trit
        requires { after < 2 ^ self.now.places }
        ensures { result ≡ step_at (data_of self.now.cell.now) self.now.group
            (turned_point place (point_with self.now.places after)) (point_with self.now.places after) state }
    {
        let steps = self.turned_steps(place, after);
        if state { steps.one } else { steps.zero }
    }

    /// The next state from both states at a change of this place to the point with this number, unknown where it is not the same.
    fn from_both(&self, place: usize, after: usize) -> Trit
        requires { after < 2 ^ self.now.places }
        ensures { result ≡ both_steps (step_at (data_of self.now.cell.now) self.now.group)
            (point_with self.now.places after) (turned_point place (point_with self.now.places after)) }
    {
        let steps = self.turned_steps(place, after);
        steps.zero.agreed(steps.one)
    }

    /// The value to which the point with this number forces the state: the next state from both states, and from the point itself
    /// and each that differs from it in one place; unknown where it is not the same.
    pub fn forced(&self, number: usize) -> Trit
        requires { number < 2 ^ self.now.places }
        ensures { result ≡ forced_at (step_at (data_of self.now.cell.now) self.now.group)
            (point_with self.now.places number) }
    {
        let mut value = self.from_both(self.places, number);
        for behind in 0..self.places {
            let place = self.places - 1 - behind;
            value = value.agreed(self.from_both(place, number));
        }
        value
    }
}
