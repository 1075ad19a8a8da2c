//! What the models of a cell are made from.
ghost use Rattle.std.specs.Prelude.{◌≡◌, map};
ghost use Rattle.cell_machine.specs.CellData.{data_of};
ghost use Rattle.udp_tables.specs.Conditions.{conditions_of};
ghost use Rattle.cell_tables.specs.Cubes.{cell_cubes};

use crate::cell_conditions::conditions;
use crate::cell_cubes::cell_cubes;
use crate::cubes::{CellCubes, FunctionCubes, GroupCubes};
use bool_functions::Function;
use cell_machine::{Cell, entry};
use std::alloc::{AllocError, Global};
use udp_tables::Part;

/// What is found once of a cell for all its models.
#[derive(Drop)]
pub struct ModelParts<'a> {
    alloc: Global,
    cell: &'a Cell,
    conditions: Vec<&'a Function>,
    cubes: CellCubes,
    ghost are_conditions: { map (λ f. f.now) conditions.items ≡ conditions_of (data_of cell.now) },
    ghost are_cubes: { cubes ≡ cell_cubes (data_of cell.now) },
}

/// What a model of a cell is made from.
#[derive(Clone, Copy)]
pub struct ModelSource<'a> {
    /// Where memory comes from.
    pub alloc: Global,
    /// The cell.
    pub cell: &'a Cell,
    /// The cell's conditions, in the order of their numbers.
    pub conditions: &'a [&'a Function],
    /// The cubes of the cell's groups, conditions and outputs.
    cubes: &'a CellCubes,
    pub ghost are_conditions: { map (λ f. f.now) conditions.now ≡ conditions_of (data_of cell.now) },
    ghost are_cubes: { cubes.now ≡ cell_cubes (data_of cell.now) },
}

impl<'a> ModelParts<'a> {
    ghost use Rattle.std.specs.Prelude.{◌≡◌, IfOk};

    /// The parts of a cell. `AllocError` comes only where memory is wanting.
    pub fn of(alloc: Global, cell: &'a Cell) -> Result<ModelParts<'a>, AllocError>
        ensures { IfOk result (λ parts. parts.cell.now ≡ cell.now) }
    {
        let conditions = conditions(alloc, cell)?;
        let cubes = cell_cubes(alloc, cell, &conditions)?;
        Ok(ModelParts {
            alloc,
            cell,
            conditions,
            cubes,
        })
    }

    /// The source of the cell's models.
    pub fn source(&self) -> ModelSource<'_>
        ensures { result.cell.now ≡ self.now.cell.now }
    {
        ModelSource {
            alloc: self.alloc,
            cell: self.cell,
            conditions: &self.conditions,
            cubes: &self.cubes,
        }
    }
}

impl ModelSource<'_> {
    ghost use Rattle.std.specs.Prelude.{◌≡◌, ◌<◌, length};
    ghost use Rattle.cell_machine.specs.CellData.{data_of};
    ghost use Rattle.udp_tables.specs.CellPrimitives.{IsPart};
    ghost use Rattle.cell_tables.specs.Cubes.{cubes_of_group, cubes_of_part};

    /// The cubes of a group.
    pub(crate) fn group_cubes(&self, group: usize) -> &GroupCubes
        requires { group < length self.now.cell.now.groups }
        ensures { result.now ≡ cubes_of_group (data_of self.now.cell.now) group }
    {
        entry(&self.cubes.groups, group)
    }

    /// The cubes of an output or a condition that the cell has.
    pub(crate) fn part_cubes(&self, part: Part) -> &FunctionCubes
        requires { IsPart (data_of self.now.cell.now) part }
        ensures { result.now ≡ cubes_of_part (data_of self.now.cell.now) part }
    {
        match part {
            Part::Output(output) => entry(&self.cubes.outputs, output),
            Part::Condition(number) => entry(&self.cubes.conditions, number),
        }
    }
}
