//! The cubes of a group's step.
ghost use Rattle.std.specs.Prelude.{◌≡◌, length, IfOk};
ghost use Rattle.trit_cubes.specs.Sets.{AreValuesOf};
ghost use Rattle.cell_machine.specs.Machine.{forced_at};
ghost use Rattle.cell_machine.specs.CellData.{data_of};
ghost use Rattle.cell_machine.specs.CellTrace.{support_at, step_at};
ghost use Rattle.cell_tables.specs.Cubes.{function_cubes, change_cubes, cubes_of_group};

use crate::change_cubes::add_cubes_of_input;
use crate::cubes::{ChangeCube, FunctionCubes, GroupCubes};
use crate::function_cubes::function_cubes;
use sqlite_items::Items;
use std::alloc::{AllocError, Global};
use step_tables::{StepTable, point_count};
use trit_cubes::Trit;

/// The cubes of a group, whose steps these are.
pub(crate) fn group_cubes(alloc: Global, steps: &StepTable<'_>) -> Result<GroupCubes, AllocError>
    ensures { IfOk result (λ cubes. cubes ≡ cubes_of_group (data_of steps.now.cell.now) steps.now.group) }
{
    Ok(GroupCubes {
        forced: forced_cubes(alloc, steps)?,
        changes: change_cubes(alloc, steps)?,
    })
}

/// The cubes of the points that force the state of a group.
fn forced_cubes(alloc: Global, steps: &StepTable<'_>) -> Result<FunctionCubes, AllocError>
    ensures { IfOk result (λ cubes. cubes ≡ function_cubes
        (length (support_at (data_of steps.now.cell.now) steps.now.group))
        (forced_at (step_at (data_of steps.now.cell.now) steps.now.group))) }
{
    let places = steps.cell.group(steps.group).support.len();
    let values = forced_values(alloc, steps)?;
    let cubes = function_cubes(alloc, places, &values)?;
    Ok(cubes)
}

/// The values to which the points force the state of a group.
fn forced_values(alloc: Global, steps: &StepTable<'_>) -> Result<Vec<Trit>, AllocError>
    ensures { IfOk result (λ values. AreValuesOf (length (support_at (data_of steps.now.cell.now) steps.now.group))
        (forced_at (step_at (data_of steps.now.cell.now) steps.now.group)) values.items) }
{
    let points = point_count(steps.places);
    let mut values = Vec::with_capacity(alloc, points)?;
    for number in 0..points {
        values.push(steps.forced(number))?;
    }
    Ok(values)
}

/// The cubes of the changes of each input.
fn change_cubes(alloc: Global, steps: &StepTable<'_>) -> Result<Items<ChangeCube>, AllocError>
    ensures { IfOk result (λ cubes. cubes ≡ change_cubes (step_at (data_of steps.now.cell.now) steps.now.group)
        (length (support_at (data_of steps.now.cell.now) steps.now.group))) }
{
    let mut cubes = Items::new(alloc);
    for place in 0..steps.cell.group(steps.group).support.len() {
        add_cubes_of_input(alloc, &mut cubes, steps, place)?;
    }
    Ok(cubes)
}
