//! The comparison of a scan cell with its test view.
ghost use Rattle.std.specs.Prelude.{◌≡◌, length};
ghost use Rattle.std.specs.List.{range_with_len};
ghost use Rattle.cell_machine.specs.CellData.{data_of};
ghost use Rattle.scan_cells.specs.Views.{view_data, StandsBeside};
ghost use Rattle.scan_cells.specs.Comparison.{first_some, group_difference as group_difference_of};
ghost use Rattle.scan_cells.specs.Comparison.{output_difference as output_difference_of, first_difference as first_difference_of};
ghost use Rattle.scan_cells.specs.Comparison.{agreement};

use crate::answers::{Agreement, Difference};
use crate::group_steps::group_difference;
use crate::output_values::output_difference;
use crate::views::View;
use cell_machine::Cell;

/// The first difference of the state groups.
#[tactic(auto, using(crate::proofs::Ranges::first_turn, crate::proofs::Ranges::first_end))]
fn first_of_groups(cell: &Cell, view: &View) -> Option<Difference>
    requires { StandsBeside (data_of cell.now) (view_data view.now) }
    ensures { result ≡ first_some (group_difference_of (data_of cell.now) (view_data view.now))
        (range_with_len 0 (length cell.now.groups)) }
{
    for group in 0..cell.groups.len() {
        if let Some(difference) = group_difference(cell, view, group) {
            return Some(difference);
        }
    }
    None
}

/// The first difference of the outputs.
#[tactic(auto, using(crate::proofs::Ranges::first_turn, crate::proofs::Ranges::first_end))]
fn first_of_outputs(cell: &Cell, view: &View) -> Option<Difference>
    ensures { result ≡ first_some (output_difference_of (data_of cell.now) (view_data view.now))
        (range_with_len 0 (length cell.now.outputs)) }
{
    for output in 0..cell.outputs.len() {
        if let Some(difference) = output_difference(cell, view, output) {
            return Some(difference);
        }
    }
    None
}

/// The first difference of a cell and its view: the state groups come before the outputs.
fn first_difference(cell: &Cell, view: &View) -> Option<Difference>
    requires { StandsBeside (data_of cell.now) (view_data view.now) }
    ensures { result ≡ first_difference_of (data_of cell.now) (view_data view.now) }
{
    match first_of_groups(cell, view) {
        Some(difference) => Some(difference),
        None => first_of_outputs(cell, view),
    }
}

/// Whether a view does what its cell does while the scan enable is inactive, before a change as well as after it: whether
/// the steps of the state groups are equal at every point, from every point that equals it or differs from it in one pin,
/// and from both states, and the outputs are equal at all points. Else the first difference. It takes no memory.
///
/// The state groups come before the outputs; outputs are compared by name, in the order of the cell. Within a part the
/// points after the change go by their numbers; before each the unchanged point comes first, then the points with one
/// changed pin in the order of the pins; state 0 comes before state 1.
pub fn agrees(cell: &Cell, view: &View) -> Agreement
    requires { StandsBeside (data_of cell.now) (view_data view.now) }
    ensures { result ≡ agreement (data_of cell.now) (view_data view.now) }
{
    match first_difference(cell, view) {
        None => Agreement::Same,
        Some(difference) => Agreement::Differs {
            part: difference.part,
            before: difference.before,
            after: difference.after,
            state: difference.state,
            of_cell: difference.of_cell,
            of_view: difference.of_view,
        },
    }
}
