//! The values of an output, by points over the places at which a cell and its view are compared.
ghost use Rattle.std.specs.Prelude.{◌≡◌, ◌<◌, ◌≤◌, ◌^◌, length, map};
ghost use Rattle.cell_machine.specs.CellData.{data_of};
ghost use Rattle.cell_machine.specs.CellTrace.{sources_at, output_value_at};
ghost use Rattle.scan_cells.specs.Weights.{weight_of as weight_of_source, weighed, output_values as output_values_of};

use crate::numbering::Numbering;
use cell_attributes::limits::MOST_OUTPUT_SOURCES;
use cell_machine::{Cell, Few, Source, output_at};
use step_tables::point_of;
use trit_cubes::Trit;

/// The most points of an output's support.
const MOST_POINTS: usize = 1024;

/// How many points there are over so many places.
fn point_count(places: usize) -> usize
    requires { places ≤ 10 }
    ensures { result ≡ 2 ^ places }
{
    1 << places
}

/// The values of an output at the points of its support, which has so many places, by the numbers of the points.
fn output_values(cell: &Cell, output: usize, places: usize) -> Few<Trit, MOST_POINTS>
    requires output { output < length cell.now.outputs }
    requires places { places ≡ length (sources_at (data_of cell.now) output) }
    requires few { places ≤ 10 }
    ensures { result ≡ output_values_of (data_of cell.now) output places }
{
    let mut values = Few::new(Trit::Unknown);
    for number in 0..point_count(places) {
        let point = point_of::<MOST_OUTPUT_SOURCES>(places, number);
        values.push(output_at(cell, output, point.as_slice()));
    }
    values
}

/// The values of an output, and the numbers of points over its support.
#[derive(Drop)]
pub struct OutputTable<'a> {
    cell: &'a Cell,
    output: usize,
    numbering: Numbering,
    values: Few<Trit, MOST_POINTS>,
    ghost are_values: { values ≡ output_values_of (data_of cell.now) output (length numbering.weights) },
}

impl<'a> OutputTable<'a> {
    /// The values of the output with this number, whose support is this one as it stands among these places.
    pub fn of(
        cell: &'a Cell,
        output: usize,
        places: &[Source],
        support: &[Source],
    ) -> OutputTable<'a>
        requires output { output < length cell.now.outputs }
        requires places { length places.now ≤ 20 }
        requires support { length support.now ≡ length (sources_at (data_of cell.now) output) }
        requires few { length support.now ≤ 10 }
        ensures cell { result.cell.now ≡ cell.now }
        ensures output { result.output ≡ output }
        ensures weights { result.numbering.weights ≡ map (weight_of_source places.now) support.now }
    {
        OutputTable {
            cell,
            output,
            numbering: Numbering::of(places, support),
            values: output_values(cell, output, support.len()),
        }
    }

    /// The value at a point.
    pub fn value(&self, point: u32) -> Trit
        ensures { result ≡ output_value_at (data_of self.now.cell.now) self.now.output
            (weighed self.now.numbering.weights point) }
    {
        let number = self.numbering.number(point);
        self.values.as_slice()[number]
    }
}
