//! What the functions of a cell give for values that may be unknown.
ghost use Rattle.std.specs.Prelude.{◌≡◌, ◌<◌, ◌≤◌, ◌++◌, ◌∷◌, [], length, slice_index_or};
ghost use Rattle.trit_cubes.specs.declared.trits.Trit.TheVariants as trit;
ghost use Rattle.trit_cubes.specs.Sets.{AreValuesOf};
ghost use Rattle.bool_functions.specs.Tree.{name_bound};
ghost use Rattle.cell_machine.specs.{Machine.without, Outputs.condition_at, CellData.data_of};
ghost use Rattle.cell_machine.specs.CellTrace.{support_at, sources_at, output_value_at};
ghost use Rattle.row_selection.specs.NextStates.{next_states};
ghost use Rattle.module_tables.specs.{Tables.cell_step, Tables.cell_forced, LookUps.AreSteps, LookUps.AreForces};

use crate::net_rows::NetRows;
use crate::resolved::{tabled, values_at};
use bool_functions::Function;
use cell_machine::{Cell, Few, Values, change_value, point_value};
use cell_tables::forced_at;
use row_selection::NextStates;
use trit_cubes::Trit;

/// The values of a group's step at changes of the pin at a place, by the numbers of the points.
pub(crate) fn edge_values(cell: &Cell, group: usize, place: usize) -> Few<Trit, 1024>
    requires group { group < length cell.now.groups }
    requires place { place < length (support_at (data_of cell.now) group) }
    ensures { AreSteps (data_of cell.now) group place result }
{
    let pins = cell.group(group).support.len();
    values_at(
        pins + 2,
        &|point: &[bool]| { change_value(cell, group, place, point) },
    )
}

/// The values to which points of its pins force the state of a group, by the numbers of the points.
pub(crate) fn forces(cell: &Cell, group: usize) -> Few<Trit, 1024>
    requires { group < length cell.now.groups }
    ensures { AreForces (data_of cell.now) group result }
{
    let pins = cell.group(group).support.len();
    values_at(pins, &|point: &[bool]| { forced_at(cell, group, point) })
}

/// The value to which the pins force the state of a group.
pub(crate) fn forced_by(cell: &Cell, group: usize, forces: &[Trit], values: &[Trit]) -> Trit
    requires group { group < length cell.now.groups }
    requires values { length values.now ≡ length (support_at (data_of cell.now) group) }
    requires forces { AreForces (data_of cell.now) group forces.now }
    ensures { result ≡ cell_forced (data_of cell.now) group values.now }
{
    let _few = cell.group(group).support.len();
    tabled(forces, values)
}

/// A change of the pin at a place of the support of a group.
#[derive(Clone, Copy)]
pub(crate) struct PinChange<'a> {
    /// The place, from 0.
    pub place: usize,
    /// The value of the pin before.
    pub old: Trit,
    /// The values of the support after.
    pub values: &'a [Trit],
    /// The values of the group's step at changes of this pin, by the numbers of the points.
    pub steps: &'a [Trit],
    /// The rows of the instance that may match.
    pub rows: &'a NetRows<'a>,
    /// Whether these are known to ask nothing of the register of the checks.
    pub ignores_note: bool,
}

/// The places of a change: the value before and after of the pin that changes, the other pins and the state.
fn change_places(change: PinChange<'_>, state: Trit) -> Few<Trit, 10>
    requires place { change.place < length change.values.now }
    requires few { length change.values.now ≤ 8 }
    ensures { result ≡ change.entry.old ∷ slice_index_or change.entry.values.now change.entry.place trit.Unknown ∷ without
        change.entry.place change.entry.values.now ++ state ∷ [] }
{
    let mut places = Few::new(Trit::Unknown);
    places.push(change.old);
    places.push(change.values[change.place]);
    places.append(&change.values[..change.place]);
    places.append(&change.values[change.place + 1..]);
    places.push(state);
    places
}

/// The next state of a group at a change of a pin of its support. (Unknown values are resolved by this project's rule.)
pub(crate) fn step_value(cell: &Cell, group: usize, change: PinChange<'_>, state: Trit) -> Trit
    requires values { length change.values.now ≡ length (support_at (data_of cell.now) group) }
    requires place { change.place < length change.values.now }
    requires few { length change.values.now ≤ 8 }
    requires steps { AreSteps (data_of cell.now) group change.place change.steps.now }
    ensures { result ≡ cell_step (data_of cell.now) group change.entry.place change.entry.old change.entry.values.now state }
{
    let places = change_places(change, state);
    tabled(change.steps, places.as_slice())
}

/// The same from each state.
pub(crate) fn step_values(cell: &Cell, group: usize, change: PinChange<'_>) -> NextStates
    requires values { length change.values.now ≡ length (support_at (data_of cell.now) group) }
    requires place { change.place < length change.values.now }
    requires few { length change.values.now ≤ 8 }
    requires steps { AreSteps (data_of cell.now) group change.place change.steps.now }
    ensures { result ≡ next_states (cell_step (data_of cell.now) group change.entry.place change.entry.old
        change.entry.values.now) }
{
    let zero = step_value(cell, group, change, Trit::Zero);
    let one = step_value(cell, group, change, Trit::One);
    NextStates {
        zero,
        one,
        unknown: zero.agreed(one),
    }
}

/// The value of a condition at a point of its names.
fn condition_at(condition: &Function, names: &[usize], point: &[bool]) -> Trit
    requires { name_bound condition.now ≤ 96 }
    ensures { length point.now ≡ length names.now → result ≡ condition_at names.now condition.now point.now }
{
    if point.len() != names.len() {
        return Trit::Unknown;
    }
    Trit::from(Values::new().written(names, point).value(condition))
}

/// The values of a condition at all points of its names, by the numbers of the points.
pub(crate) fn condition_values(condition: &Function, names: &[usize]) -> Few<Trit, 1024>
    requires bounded { name_bound condition.now ≤ 96 }
    requires few { length names.now ≤ 10 }
    ensures { AreValuesOf (length names.now) (condition_at names.now condition.now) result }
{
    values_at(
        names.len(),
        &|point: &[bool]| { condition_at(condition, names, point) },
    )
}

/// The values of an output at all points of its support, by the numbers of the points.
pub(crate) fn output_values(cell: &Cell, output: usize) -> Few<Trit, 1024>
    requires output { output < length cell.now.outputs }
    requires few { length (sources_at (data_of cell.now) output) ≤ 10 }
    ensures { AreValuesOf (length (sources_at (data_of cell.now) output)) (output_value_at (data_of cell.now) output) result }
{
    let places = cell.output_pin(output).support.len();
    values_at(
        places,
        &|point: &[bool]| { point_value(cell, output, point) },
    )
}
