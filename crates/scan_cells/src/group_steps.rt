//! The steps of a state group of a cell beside those of its view's.
ghost use Rattle.std.specs.Prelude.{◌≡◌, ℕ, ◌+◌, ◌<◌, true, None, length};
ghost use Rattle.cell_machine.specs.CellData.{data_of};
ghost use Rattle.scan_cells.specs.Views.{view_data, StandsBeside};
ghost use Rattle.std.specs.List.{range_with_len};
ghost use Rattle.scan_cells.specs.Places.{is_inactive, changed_at as changed_at_place};
ghost use Rattle.scan_cells.specs.Masks.{IsMask};
ghost use Rattle.scan_cells.specs.OverPlaces.{AreSteps};
ghost use Rattle.scan_cells.specs.Comparison.{first_some, cell_support, view_support, step_places, cell_steps, view_steps};
ghost use Rattle.scan_cells.specs.Comparison.{difference, state_difference, change_difference, after_difference};
ghost use Rattle.scan_cells.specs.Comparison.{group_difference as group_difference_of};

use crate::answers::Difference;
use crate::by_points::{Compared, first_from};
use crate::compared_places::ComparedPlaces;
use crate::point_steps::PointSteps;
use crate::points::changed_at;
use crate::sources::{in_cell, pin_sources};
use crate::views::View;
use cell_machine::Cell;
use step_tables::StateSteps;
use trit_cubes::Trit;

/// A state group of a cell and that of its view with the same number, over the places of both supports.
#[derive(Drop)]
pub struct GroupPair<'a> {
    cell: &'a Cell,
    group: usize,
    of_cell: PointSteps<'a>,
    of_view: PointSteps<'a>,
    over: ComparedPlaces<'a>,
    ghost are_places: { over.places ≡ step_places (data_of cell.now) (view_data over.view.now) group },
    ghost inside: { group < length cell.now.groups },
    ghost tells_cell: { AreSteps cell.now group over.places (cell_support (data_of cell.now) group) of_cell },
    ghost tells_view: { AreSteps over.view.now.cell group over.places
        (view_support (view_data over.view.now) group) of_view },
    ghost is_cell_mask: { IsMask (view_data over.view.now) over.places (cell_support (data_of cell.now) group) over.cell_mask },
    ghost is_view_mask: { IsMask (view_data over.view.now) over.places
        (view_support (view_data over.view.now) group) over.view_mask },
}

impl<'a> GroupPair<'a> {
    /// The groups with this number.
    fn of(cell: &'a Cell, view: &'a View, group: usize) -> GroupPair<'a>
        requires beside { StandsBeside (data_of cell.now) (view_data view.now) }
        requires group { group < length cell.now.groups }
        ensures cell { result.cell.now ≡ cell.now }
        ensures view { result.over.view.now ≡ view.now }
        ensures group { result.group ≡ group }
    {
        let of_cell = pin_sources(cell.group(group).support.as_slice());
        let of_view = pin_sources(view.cell.group(group).support.as_slice());
        let of_view = in_cell(view, of_view.as_slice());
        let over = ComparedPlaces::of(cell, view, of_cell.as_slice(), of_view.as_slice());
        GroupPair {
            of_cell: PointSteps::of(cell, group, over.as_slice(), of_cell.as_slice()),
            of_view: PointSteps::of(&view.cell, group, over.as_slice(), of_view.as_slice()),
            cell,
            group,
            over,
        }
    }

    /// The steps of the cell's group.
    fn cell_steps(&self, before: u32, after: u32) -> StateSteps
        ensures { result ≡ cell_steps (data_of self.now.cell.now) (view_data self.now.over.view.now) self.now.group before after }
    {
        self.of_cell.steps(before, after)
    }

    /// The steps of the view's group.
    fn view_steps(&self, before: u32, after: u32) -> StateSteps
        ensures { result ≡ view_steps (data_of self.now.cell.now) (view_data self.now.over.view.now) self.now.group before after }
    {
        self.of_view.steps(before, after)
    }

    /// The difference at a change from one state, where the steps give these values.
    fn step_difference(
        &self,
        before: u32,
        after: u32,
        state: bool,
        of_cell: Trit,
        of_view: Trit,
    ) -> Option<Difference>
        ensures { result ≡ difference (self.now.group + 1) before after state of_cell of_view }
    {
        let difference = Difference {
            part: self.group + 1,
            before,
            after,
            state,
            of_cell,
            of_view,
        };
        difference.found()
    }

    /// The first difference of the steps at a change.
    fn state_difference(&self, before: u32, after: u32) -> Option<Difference>
        ensures { result ≡ state_difference (data_of self.now.cell.now) (view_data self.now.over.view.now) self.now.group before
            after }
    {
        let of_cell = self.cell_steps(before, after);
        let of_view = self.view_steps(before, after);
        match self.step_difference(before, after, false, of_cell.zero, of_view.zero) {
            Some(difference) => Some(difference),
            None => self.step_difference(before, after, true, of_cell.one, of_view.one),
        }
    }

    /// The same, but none where the scan enable is active before the change.
    fn change_difference(&self, after: u32, before: u32) -> Option<Difference>
        ensures { result ≡ change_difference (data_of self.now.cell.now) (view_data self.now.over.view.now) self.now.group after
            before }
    {
        if self.over.is_inactive(before) {
            self.state_difference(before, after)
        } else {
            None
        }
    }

    /// The difference at a change of one place that leads to a point, where there is none at the points before it and none where
    /// nothing changes. Then there is none at a change from a point with 1 at a place that the cell's group does not depend on
    /// and at one that the view's does not, since the two differ there only where they do without these places.
    fn next_change(&self, after: u32, k: usize) -> Option<Difference>
        requires place { k < length self.now.over.places }
        requires before { (p : ℕ) → p < after
            → after_difference (data_of self.now.cell.now) (view_data self.now.over.view.now) self.now.group p ≡ None }
        requires unchanged { change_difference (data_of self.now.cell.now) (view_data self.now.over.view.now) self.now.group after
            after ≡ None }
        requires idle { is_inactive (view_data self.now.over.view.now) self.now.over.places after ≡ true }
        ensures { result ≡ change_difference (data_of self.now.cell.now) (view_data self.now.over.view.now) self.now.group after
            (changed_at_place after k) }
    {
        let before = changed_at(after, k);
        if self.over.is_mixed(before) {
            return None;
        }
        self.change_difference(after, before)
    }

    /// The first difference at a change of one place that leads to a point, where there is none at the points before it and none
    /// where nothing changes.
    #[tactic(auto, using(crate::proofs::Ranges::first_turn, crate::proofs::Ranges::first_end))]
    fn changed_difference(&self, after: u32) -> Option<Difference>
        requires before { (p : ℕ) → p < after
            → after_difference (data_of self.now.cell.now) (view_data self.now.over.view.now) self.now.group p ≡ None }
        requires unchanged { change_difference (data_of self.now.cell.now) (view_data self.now.over.view.now) self.now.group after
            after ≡ None }
        requires idle { is_inactive (view_data self.now.over.view.now) self.now.over.places after ≡ true }
        ensures { result ≡ first_some (λ k. change_difference (data_of self.now.cell.now) (view_data self.now.over.view.now)
            self.now.group after (changed_at_place after k)) (range_with_len 0 (length self.now.over.places)) }
    {
        for k in 0..self.over.as_slice().len() {
            if let Some(difference) = self.next_change(after, k) {
                return Some(difference);
            }
        }
        None
    }

    /// The first difference at a point, unchanged or after a change of one place, where there is none at the points before it;
    /// none where the scan enable is active.
    fn after_difference(&self, after: u32) -> Option<Difference>
        requires before { (p : ℕ) → p < after
            → after_difference (data_of self.now.cell.now) (view_data self.now.over.view.now) self.now.group p ≡ None }
        ensures { result ≡ after_difference (data_of self.now.cell.now) (view_data self.now.over.view.now) self.now.group after }
    {
        if !self.over.is_inactive(after) {
            return None;
        }
        match self.change_difference(after, after) {
            Some(difference) => Some(difference),
            None => self.changed_difference(after),
        }
    }

    /// The first difference of the groups.
    #[tactic(auto, using(crate::proofs::Halves::few_points))]
    fn difference(&self) -> Option<Difference>
        ensures { result ≡ group_difference_of (data_of self.now.cell.now) (view_data self.now.over.view.now) self.now.group }
    {
        first_from(self, 0, self.over.as_slice().len())
    }
}

impl<'a> Compared for GroupPair<'a> {
    ghost use Rattle.cell_machine.specs.CellData.{data_of};
    ghost use Rattle.scan_cells.specs.Views.{view_data};
    ghost use Rattle.scan_cells.specs.Comparison.{after_difference};

    ghost at = { λ pair. after_difference (data_of pair.cell.now) (view_data pair.over.view.now) pair.group };

    fn is_mixed(&self, point: u32) -> bool {
        self.over.is_mixed(point)
    }

    fn difference_at(&self, point: u32) -> Option<Difference> {
        self.after_difference(point)
    }
}

/// The first difference of the state groups with this number.
pub fn group_difference(cell: &Cell, view: &View, group: usize) -> Option<Difference>
    requires beside { StandsBeside (data_of cell.now) (view_data view.now) }
    requires group { group < length cell.now.groups }
    ensures { result ≡ group_difference_of (data_of cell.now) (view_data view.now) group }
{
    GroupPair::of(cell, view, group).difference()
}
