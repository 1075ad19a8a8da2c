//! The values of an output of a cell beside those of its view's.
ghost use Rattle.std.specs.Prelude.{◌≡◌, ◌<◌, length, IfSome};
ghost use Rattle.cell_machine.specs.CellData.{data_of};
ghost use Rattle.cell_machine.specs.CellTrace.{sources_at};
ghost use Rattle.scan_cells.specs.Views.{view_data};
ghost use Rattle.scan_cells.specs.Masks.{IsMask};
ghost use Rattle.scan_cells.specs.OverPlaces.{AreValues};
ghost use Rattle.scan_cells.specs.Comparison.{is_on_pin as is_on_pin_of, output_in_view as output_in_view_of, output_support};
ghost use Rattle.scan_cells.specs.Comparison.{output_places, cell_output, view_output, point_difference, pair_difference};
ghost use Rattle.scan_cells.specs.Comparison.{output_difference as output_difference_of};

use crate::answers::Difference;
use crate::by_points::{Compared, first_from};
use crate::compared_places::ComparedPlaces;
use crate::output_table::OutputTable;
use crate::sources::{in_cell, pin_in_cell};
use crate::views::View;
use cell_machine::{Cell, OutputPin};
use trit_cubes::Trit;

/// An output of a cell and one of its view, over the places of both supports.
#[derive(Drop)]
pub struct OutputPair<'a> {
    cell: &'a Cell,
    output: usize,
    view_output: usize,
    of_cell: OutputTable<'a>,
    of_view: OutputTable<'a>,
    over: ComparedPlaces<'a>,
    ghost in_cell: { output < length cell.now.outputs },
    ghost in_view: { view_output < length over.view.now.cell.outputs },
    ghost are_places: { over.places ≡ output_places (data_of cell.now) (view_data over.view.now) output view_output },
    ghost tells_cell: { AreValues cell.now output over.places (sources_at (data_of cell.now) output) of_cell },
    ghost tells_view: { AreValues over.view.now.cell view_output over.places
        (output_support (view_data over.view.now) view_output) of_view },
    ghost is_cell_mask: { IsMask (view_data over.view.now) over.places (sources_at (data_of cell.now) output) over.cell_mask },
    ghost is_view_mask: { IsMask (view_data over.view.now) over.places
        (output_support (view_data over.view.now) view_output) over.view_mask },
}

impl<'a> OutputPair<'a> {
    /// The outputs with these numbers.
    fn of(cell: &'a Cell, view: &'a View, output: usize, view_output: usize) -> OutputPair<'a>
        requires output { output < length cell.now.outputs }
        requires view_output { view_output < length view.now.cell.outputs }
        ensures cell { result.cell.now ≡ cell.now }
        ensures view { result.over.view.now ≡ view.now }
        ensures output { result.output ≡ output }
        ensures view_output { result.view_output ≡ view_output }
    {
        let of_cell = cell.output_pin(output).support.as_slice();
        let of_view = in_cell(view, view.cell.output_pin(view_output).support.as_slice());
        let over = ComparedPlaces::of(cell, view, of_cell, of_view.as_slice());
        OutputPair {
            cell,
            output,
            view_output,
            of_cell: OutputTable::of(cell, output, over.as_slice(), of_cell),
            of_view: OutputTable::of(&view.cell, view_output, over.as_slice(), of_view.as_slice()),
            over,
        }
    }

    /// The value of the cell's output at a point.
    fn cell_output(&self, point: u32) -> Trit
        ensures { result ≡ cell_output (data_of self.now.cell.now) (view_data self.now.over.view.now) self.now.output
            self.now.view_output point }
    {
        self.of_cell.value(point)
    }

    /// The value of the view's output at a point.
    fn view_output(&self, point: u32) -> Trit
        ensures { result ≡ view_output (data_of self.now.cell.now) (view_data self.now.over.view.now) self.now.output
            self.now.view_output point }
    {
        self.of_view.value(point)
    }

    /// The difference of the outputs at a point; none where the scan enable is active.
    fn point_difference(&self, point: u32) -> Option<Difference>
        ensures { result ≡ point_difference (data_of self.now.cell.now) (view_data self.now.over.view.now) self.now.output
            self.now.view_output point }
    {
        if !self.over.is_inactive(point) {
            return None;
        }
        let difference = Difference {
            part: self.cell.groups.len() + self.output + 1,
            before: point,
            after: point,
            state: false,
            of_cell: self.cell_output(point),
            of_view: self.view_output(point),
        };
        difference.found()
    }

    /// The first difference of the outputs.
    #[tactic(auto, using(crate::proofs::Halves::few_points))]
    fn difference(&self) -> Option<Difference>
        ensures { result ≡ pair_difference (data_of self.now.cell.now) (view_data self.now.over.view.now) self.now.output
            self.now.view_output }
    {
        first_from(self, 0, self.over.as_slice().len())
    }
}

impl<'a> Compared for OutputPair<'a> {
    ghost use Rattle.cell_machine.specs.CellData.{data_of};
    ghost use Rattle.scan_cells.specs.Views.{view_data};
    ghost use Rattle.scan_cells.specs.Comparison.{point_difference};

    ghost at = { λ pair. point_difference (data_of pair.cell.now) (view_data pair.over.view.now) pair.output pair.view_output };

    fn is_mixed(&self, point: u32) -> bool {
        self.over.is_mixed(point)
    }

    fn difference_at(&self, point: u32) -> Option<Difference> {
        self.point_difference(point)
    }
}

/// Whether an output of a view stands on the pin with this number in the cell.
fn is_on_pin(view: &View, pin: usize, output: &OutputPin) -> bool
    ensures { result ≡ is_on_pin_of (view_data view.now) pin output.now }
{
    pin_in_cell(view, output.pin) == pin
}

/// The view's output on the pin with this number in the cell.
fn output_in_view(view: &View, pin: usize) -> Option<usize>
    ensures is { result ≡ output_in_view_of (view_data view.now) pin }
    ensures within { IfSome result (λ j. j < length view.now.cell.outputs) }
{
    let outputs = view.cell.outputs.as_slice();
    outputs
        .iter()
        .position(|output| is_on_pin(view, pin, output))
}

/// The first difference of the cell's output with this number and the view's output of the same name.
pub fn output_difference(cell: &Cell, view: &View, output: usize) -> Option<Difference>
    requires { output < length cell.now.outputs }
    ensures { result ≡ output_difference_of (data_of cell.now) (view_data view.now) output }
{
    let pin = cell.output_pin(output).pin;
    match output_in_view(view, pin) {
        Some(other) => OutputPair::of(cell, view, output, other).difference(),
        None => None,
    }
}
