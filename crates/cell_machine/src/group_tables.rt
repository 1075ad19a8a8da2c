//! The steps of a cell's groups by tables.
ghost use Rattle.std.specs.Prelude.{◌≡◌, ◌+◌, ◌<◌, ◌≤◌, ◌++◌, suc, length, map, position, nat_eq, IfOk, OnOk};
ghost use Rattle.std.specs.List.{list_all};
ghost use Rattle.trit_cubes.specs.Filling.{same};
ghost use Rattle.trit_cubes.specs.Resolution.{res};
ghost use Rattle.trit_cubes.specs.Sets.{AreValuesOf};
ghost use Rattle.cell_machine.specs.Machine.{insert, without, edge_value};
ghost use Rattle.cell_machine.specs.CellTrace.{inputs_of, support_at, step_at};
ghost use Rattle.cell_machine.specs.CellData.{data_of};
ghost use Rattle.cell_machine.specs.Inputs.{input_number as input_number_of};
ghost use Rattle.cell_machine.specs.StepTables.{IsStep, AreChangeTables, AreStepTables};
ghost use Rattle.cell_machine.specs.StillStates.{leaves_state};

use crate::cells::Cell;
use crate::few::Few;
use crate::group_steps::boolean_step;
use crate::pin_values::input_number;
use crate::pins::Pin;
use sqlite_items::Items;
use std::alloc::{AllocError, Global};
use trit_cubes::{Trit, values_of};

/// A point with a bit more at this place.
fn inserted(place: usize, bit: bool, point: &[bool]) -> Few<bool, 8>
    requires place { place ≤ length point.now }
    requires few { length point.now ≤ 7 }
    ensures { result ≡ insert place bit point.now }
{
    let (front, back) = point.split_at(place);
    let mut whole = Few::new(false);
    whole.append(front);
    whole.push(bit);
    whole.append(back);
    whole
}

/// The step of a group at a change of a place of its support, at a point: the value before, the value after, the other inputs
/// and the state. Unknown where the point has another number of places.
pub fn change_value(cell: &Cell, group: usize, place: usize, point: &[bool]) -> Trit
    requires group { group < length cell.now.groups }
    requires place { place < length (support_at (data_of cell.now) group) }
    ensures { length point.now ≡ suc (suc (length (support_at (data_of cell.now) group)))
        → result ≡ edge_value (step_at (data_of cell.now) group) place point.now }
{
    let pins = cell.group(group).support.len();
    if point.len() != pins + 2 {
        return Trit::Unknown;
    }
    edge_value(cell, group, place, point)
}

/// What the step gives there.
fn edge_value(cell: &Cell, group: usize, place: usize, point: &[bool]) -> Trit
    requires group { group < length cell.now.groups }
    requires place { place < length (support_at (data_of cell.now) group) }
    requires point { length point.now ≡ length (support_at (data_of cell.now) group) + 2 }
    requires few { length (support_at (data_of cell.now) group) ≤ 8 }
    ensures { result ≡ edge_value (step_at (data_of cell.now) group) place point.now }
{
    let last = point.len() - 1;
    let others = &point[2..last];
    let before = inserted(place, point[0], others);
    let after = inserted(place, point[1], others);
    boolean_step(
        cell,
        group,
        before.as_slice(),
        after.as_slice(),
        point[last],
    )
}

/// The steps of a group at all points of the changes of a place of its support.
fn change_values(
    alloc: Global,
    cell: &Cell,
    group: usize,
    place: usize,
) -> Result<Vec<Trit>, AllocError>
    requires group { group < length cell.now.groups }
    requires place { place < length (support_at (data_of cell.now) group) }
    ensures { IfOk result (λ values. AreValuesOf (suc (suc (length (support_at (data_of cell.now) group))))
        (edge_value (step_at (data_of cell.now) group) place) values.items) }
{
    let pins = cell.group(group).support.len();
    let values = values_of(
        alloc,
        pins + 2,
        &|point: &[bool]| { change_value(cell, group, place, point) },
    )?;
    Ok(values)
}

/// The step of a group at the changes of an input of its support.
#[derive(Drop)]
pub struct InputStep {
    /// The place of the input in the support.
    pub place: usize,
    /// The numbers of the inputs at the other places of the support, in their order.
    pub others: Items<usize>,
    /// The values of the step at all points, each at the number of its point: the value of the input before, its value after,
    /// those of the others, and the state.
    pub values: Items<Trit>,
}

/// The place of an input in a support, where it is there.
fn place_of(pins: &[Pin], support: &[usize], input: usize) -> Option<usize>
    ensures { result ≡ position (λ p. nat_eq (input_number_of pins.now p) input) support.now }
{
    support
        .iter()
        .position(|pin| input_number(pins, *pin) == input)
}

/// Whether all of these values are this one.
fn all_are(values: &[Trit], value: Trit) -> bool
    ensures { result ≡ list_all (same value) values.now }
{
    values.iter().all(|other| is_same(value, *other))
}

/// Whether two values are the same.
fn is_same(one: Trit, other: Trit) -> bool
    ensures { result ≡ same one other }
{
    one == other
}

/// Whether a step with these values gives the state itself at each point, where the state is the last place.
fn leaves_state(values: &[Trit]) -> bool
    ensures { result ≡ leaves_state values.now }
{
    let (zeros, ones) = values.split_at(values.len() / 2);
    all_are(zeros, Trit::Zero) && all_are(ones, Trit::One)
}

/// The numbers of the inputs in a support but that at this place.
fn other_inputs(
    alloc: Global,
    pins: &[Pin],
    support: &[usize],
    place: usize,
) -> Result<Items<usize>, AllocError>
    requires { place < length support.now }
    ensures { IfOk result (λ others. others ≡ map (input_number_of pins.now) (without place support.now)) }
{
    let (before, at) = support.split_at(place);
    let mut others = Items::new(alloc);
    add_numbers(&mut others, pins, before)?;
    add_numbers(&mut others, pins, &at[1..])?;
    Ok(others)
}

/// Adds the numbers of these pins among the inputs.
fn add_numbers(numbers: &mut Items<usize>, pins: &[Pin], names: &[usize]) -> Result<(), AllocError>
    ensures { OnOk result (numbers.new ≡ numbers.old ++ map (input_number_of pins.now) names.now) }
{
    for name in names {
        numbers.push(input_number(pins, *name))?;
    }
    Ok(())
}

/// The step of a group at the changes of an input: nothing where they leave the state as it is.
fn input_step(
    alloc: Global,
    cell: &Cell,
    group: usize,
    input: usize,
) -> Result<Option<InputStep>, AllocError>
    requires { group < length cell.now.groups }
    ensures { IfOk result (IsStep (data_of cell.now) group input) }
{
    let pins = cell.pins.as_slice();
    let support = cell.group(group).support.as_slice();
    let Some(place) = place_of(pins, support, input) else {
        return Ok(None);
    };
    let values = change_values(alloc, cell, group, place)?;
    if leaves_state(values.as_slice()) {
        return Ok(None);
    }
    let others = other_inputs(alloc, pins, support, place)?;
    let values = Items::from_vec(values);
    Ok(Some(InputStep {
        place,
        others,
        values,
    }))
}

/// The same of each input.
fn change_tables(
    alloc: Global,
    cell: &Cell,
    group: usize,
    count: usize,
) -> Result<Items<Option<InputStep>>, AllocError>
    requires group { group < length cell.now.groups }
    requires count { count ≡ inputs_of (data_of cell.now) }
    ensures { IfOk result (AreChangeTables (data_of cell.now) group) }
{
    let mut tables = Items::new(alloc);
    for input in 0..count {
        let step = input_step(alloc, cell, group, input)?;
        tables.push(step)?;
    }
    Ok(tables)
}

/// The same of each group.
pub fn step_tables(
    alloc: Global,
    cell: &Cell,
) -> Result<Items<Items<Option<InputStep>>>, AllocError>
    ensures { IfOk result (AreStepTables (data_of cell.now)) }
{
    let count = input_number(cell.pins.as_slice(), cell.pins.len());
    let mut tables = Items::new(alloc);
    for group in 0..cell.groups.len() {
        let changes = change_tables(alloc, cell, group, count)?;
        tables.push(changes)?;
    }
    Ok(tables)
}
