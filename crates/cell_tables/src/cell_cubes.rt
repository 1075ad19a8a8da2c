//! The cubes of a cell.
ghost use Rattle.std.specs.Prelude.{◌≡◌, [], ◌∷◌, map, length, IfOk};
ghost use Rattle.cell_machine.specs.CellData.{data_of};
ghost use Rattle.udp_tables.specs.declared.parts.Part.TheVariants as part;
ghost use Rattle.udp_tables.specs.Edges.{each_below};
ghost use Rattle.udp_tables.specs.Conditions.{conditions_of};
ghost use Rattle.cell_tables.specs.Cubes.{cubes_of_group, cubes_of_part, cell_cubes};

use crate::cubes::{CellCubes, FunctionCubes, GroupCubes};
use crate::group_cubes::group_cubes;
use crate::part_cubes::{condition_cubes, output_cubes};
use bool_functions::Function;
use cell_machine::Cell;
use sqlite_items::Items;
use std::alloc::{AllocError, Global};
use step_tables::StepTable;

/// The cubes of a cell, which has these conditions.
pub(crate) fn cell_cubes(
    alloc: Global,
    cell: &Cell,
    conditions: &[&Function],
) -> Result<CellCubes, AllocError>
    requires { map (λ f. f.now) conditions.now ≡ conditions_of (data_of cell.now) }
    ensures { IfOk result (λ cubes. cubes ≡ cell_cubes (data_of cell.now)) }
{
    Ok(CellCubes {
        groups: groups_of(alloc, cell)?,
        conditions: conditions_of(alloc, cell, conditions)?,
        outputs: outputs_of(alloc, cell)?,
    })
}

/// The cubes of the groups.
fn groups_of(alloc: Global, cell: &Cell) -> Result<Items<GroupCubes>, AllocError>
    ensures { IfOk result (λ cubes. cubes ≡ each_below (λ g. cubes_of_group (data_of cell.now) g ∷ []) (length cell.now.groups)) }
{
    let mut cubes = Items::new(alloc);
    for group in 0..cell.groups.len() {
        let steps = StepTable::of(cell, group);
        cubes.push(group_cubes(alloc, &steps)?)?;
    }
    Ok(cubes)
}

/// The cubes of the conditions, which are these.
fn conditions_of(
    alloc: Global,
    cell: &Cell,
    conditions: &[&Function],
) -> Result<Items<FunctionCubes>, AllocError>
    requires { map (λ f. f.now) conditions.now ≡ conditions_of (data_of cell.now) }
    ensures { IfOk result (λ cubes. cubes ≡ each_below (λ i. cubes_of_part (data_of cell.now) (part.Condition i) ∷ [])
        (length (conditions_of (data_of cell.now)))) }
{
    let mut cubes = Items::new(alloc);
    for i in 0..conditions.len() {
        cubes.push(condition_cubes(alloc, conditions[i])?)?;
    }
    Ok(cubes)
}

/// The cubes of the outputs.
fn outputs_of(alloc: Global, cell: &Cell) -> Result<Items<FunctionCubes>, AllocError>
    ensures { IfOk result (λ cubes. cubes ≡ each_below (λ i. cubes_of_part (data_of cell.now) (part.Output i) ∷ [])
        (length cell.now.outputs)) }
{
    let mut cubes = Items::new(alloc);
    for i in 0..cell.outputs.len() {
        cubes.push(output_cubes(alloc, cell, i)?)?;
    }
    Ok(cubes)
}
