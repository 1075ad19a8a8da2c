//! The rows of functions, of any language.
ghost use Rattle.std.specs.Prelude.{◌≡◌, ◌++◌, map, IfOk, OnOk};
ghost use Rattle.trit_cubes.specs.declared.trits.Trit.TheVariants as trit;
ghost use Rattle.cell_machine.specs.CellData.{data_of};
ghost use Rattle.udp_tables.specs.Tables.{value_rows, or_row};
ghost use Rattle.udp_tables.specs.Edges.{rows_by, level_row_by};
ghost use Rattle.udp_tables.specs.CellPrimitives.{part_places, part_value, IsPart};
ghost use Rattle.cell_tables.specs.Cubes.{rows_of_function};

use crate::cubes::FunctionCubes;
use crate::model_source::ModelSource;
use sqlite_items::Items;
use std::alloc::{AllocError, Global};
use trit_cubes::{Cube, Trit};
use udp_tables::{LevelRows, Part, cube_symbols};

/// The rows of an output or a condition that the cell has, of an output one that depends on anything, over the pins, and then the
/// states, of its support. `AllocError` comes only where memory is wanting.
pub fn part_rows<M: LevelRows>(
    from: &ModelSource,
    part: Part,
    maker: M,
) -> Result<Items<M::Row>, AllocError>
    requires { IsPart (data_of from.now.cell.now) part }
    ensures { IfOk result (λ rows. rows ≡ rows_by (level_row_by M.Symbol.of_place (M.level_row maker))
        (part_places (data_of from.now.cell.now) part) (part_value (data_of from.now.cell.now) part)) }
{
    let rows = rows_of_function(from.alloc, from.part_cubes(part), maker)?;
    Ok(rows)
}

/// The rows for the cubes of a function, or the row that stands where there is none.
pub(crate) fn rows_of_function<M: LevelRows>(
    alloc: Global,
    cubes: &FunctionCubes,
    maker: M,
) -> Result<Items<M::Row>, AllocError>
    ensures { IfOk result (λ rows. rows ≡ rows_of_function (level_row_by M.Symbol.of_place (M.level_row maker)) cubes.now) }
{
    let mut rows = Items::new(alloc);
    add_value_rows(alloc, &mut rows, maker, cubes)?;
    let rows = or_free_row(alloc, rows, maker, &cubes.free)?;
    Ok(rows)
}

/// The rows, or one row of these free places that gives x where there is none.
pub(crate) fn or_free_row<M: LevelRows>(
    alloc: Global,
    rows: Items<M::Row>,
    maker: M,
    free: &Cube,
) -> Result<Items<M::Row>, AllocError>
    ensures { IfOk result (λ all. all ≡ or_row (level_row_by M.Symbol.of_place (M.level_row maker) trit.Unknown free.now) rows) }
{
    let mut rows = rows;
    if rows.is_empty() {
        rows.push(level_row(alloc, maker, Trit::Unknown, free)?)?;
    }
    Ok(rows)
}

/// Adds the rows of levels that give 1, one for each cube of a function, and then those that give 0.
pub(crate) fn add_value_rows<M: LevelRows>(
    alloc: Global,
    rows: &mut Items<M::Row>,
    maker: M,
    cubes: &FunctionCubes,
) -> Result<(), AllocError>
    ensures { OnOk result (rows.new ≡ rows.old
        ++ value_rows (level_row_by M.Symbol.of_place (M.level_row maker)) cubes.now.ones cubes.now.zeros) }
{
    add_level_rows(alloc, rows, maker, Trit::One, cubes.ones.as_slice())?;
    add_level_rows(alloc, rows, maker, Trit::Zero, cubes.zeros.as_slice())
}

/// Adds a row of levels with this value for each cube.
fn add_level_rows<M: LevelRows>(
    alloc: Global,
    rows: &mut Items<M::Row>,
    maker: M,
    value: Trit,
    cubes: &[Cube],
) -> Result<(), AllocError>
    ensures { OnOk result (rows.new ≡ rows.old ++ map (level_row_by M.Symbol.of_place (M.level_row maker) value) cubes.now) }
{
    for cube in cubes {
        rows.push(level_row(alloc, maker, value, cube)?)?;
    }
    Ok(())
}

/// The row of levels that gives this value on the points of a cube.
fn level_row<M: LevelRows>(
    alloc: Global,
    maker: M,
    value: Trit,
    cube: &Cube,
) -> Result<M::Row, AllocError>
    ensures { IfOk result (λ row. row ≡ level_row_by M.Symbol.of_place (M.level_row maker) value cube.now) }
{
    let symbols = cube_symbols(alloc, cube)?;
    let row = maker.level_row(symbols, value)?;
    Ok(row)
}
