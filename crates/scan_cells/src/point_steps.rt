//! The steps of a group by points over the places at which a cell and its view are compared.
ghost use Rattle.std.specs.Prelude.{◌≡◌, ◌<◌, ◌≤◌, ◌^◌, length, map};
ghost use Rattle.trit_cubes.specs.Sets.{point_of as point_with};
ghost use Rattle.cell_machine.specs.CellData.{data_of};
ghost use Rattle.cell_machine.specs.CellTrace.{support_at};
ghost use Rattle.step_tables.specs.GroupPoints.{steps_between};
ghost use Rattle.scan_cells.specs.Weights.{weight_of as weight_of_source, weighed};

use crate::numbering::Numbering;
use cell_machine::{Cell, Source};
use step_tables::{StateSteps, StepTable};

/// The steps of a group, and the numbers of points over its support.
#[derive(Drop)]
pub struct PointSteps<'a> {
    table: StepTable<'a>,
    numbering: Numbering,
    ghost each: { length numbering.weights ≡ length (support_at (data_of table.cell.now) table.group) },
}

impl<'a> PointSteps<'a> {
    /// The steps of the group with this number, whose support is this one as it stands among these places.
    pub fn of(cell: &'a Cell, group: usize, places: &[Source], support: &[Source]) -> PointSteps<'a>
        requires group { group < length cell.now.groups }
        requires places { length places.now ≤ 20 }
        requires support { length support.now ≡ length (support_at (data_of cell.now) group) }
        requires few { length support.now ≤ 8 }
        ensures cell { result.table.cell.now ≡ cell.now }
        ensures group { result.table.group ≡ group }
        ensures weights { result.numbering.weights ≡ map (weight_of_source places.now) support.now }
    {
        PointSteps {
            table: StepTable::of(cell, group),
            numbering: Numbering::of(places, support),
        }
    }

    /// The steps at a change between the points with these numbers over the support.
    fn numbered_steps(&self, before: usize, after: usize) -> StateSteps
        requires before { before < 2 ^ length self.now.numbering.weights }
        requires after { after < 2 ^ length self.now.numbering.weights }
        ensures { result ≡ steps_between (data_of self.now.table.cell.now) self.now.table.group
            (point_with (length self.now.numbering.weights) before) (point_with (length self.now.numbering.weights) after) }
    {
        self.table.steps(before, after)
    }

    /// The steps at a change of points.
    pub fn steps(&self, before: u32, after: u32) -> StateSteps
        ensures { result ≡ steps_between (data_of self.now.table.cell.now) self.now.table.group
            (weighed self.now.numbering.weights before) (weighed self.now.numbering.weights after) }
    {
        let before = self.numbering.number(before);
        let after = self.numbering.number(after);
        self.numbered_steps(before, after)
    }
}
