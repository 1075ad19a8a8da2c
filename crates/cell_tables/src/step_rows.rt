//! The rows of a group's step, of any language.
ghost use Rattle.std.specs.Prelude.{◌≡◌, ◌+◌, ◌<◌, ◌≤◌, ◌++◌, map, length, All, IfOk, OnOk};
ghost use Rattle.cell_machine.specs.CellData.{data_of};
ghost use Rattle.cell_machine.specs.CellTrace.{support_at, step_at};
ghost use Rattle.udp_tables.specs.Edges.{decisive_rows, level_row_by, edge_row_by, keep_row_by};
ghost use Rattle.cell_tables.specs.Cubes.{asked_state, change_row, rows_of_group};
ghost use Rattle.cell_tables.specs.declared.cubes.ChangeCube.{ChangeCube as ChangeData};

use crate::cubes::{ChangeCube, GroupCubes};
use crate::level_rows::add_value_rows;
use crate::model_source::ModelSource;
use sqlite_items::Items;
use std::alloc::{AllocError, Global};
use trit_cubes::Trit;
use udp_tables::{StepRows, change_symbols};

/// The rows of a group that decide its next state, by what makes a row: the points that force its state, what a check that
/// reports does, and then the changes of each input, of which two that hold the state are one. `AllocError` comes only where
/// memory is wanting.
pub fn group_rows<M: StepRows>(
    from: &ModelSource,
    group: usize,
    maker: M,
) -> Result<Items<M::Row>, AllocError>
    requires { group < length from.now.cell.now.groups }
    ensures { IfOk result (λ rows. rows ≡ decisive_rows (level_row_by M.Symbol.of_place (M.level_row maker)) (M.report_rows maker)
        (edge_row_by M.Symbol.of_place M.of_change (M.change_row maker))
        (keep_row_by M.Symbol.of_place M.of_change (M.change_row maker))
        (length (support_at (data_of from.now.cell.now) group)) (step_at (data_of from.now.cell.now) group)) }
{
    let rows = rows_of_group(from.alloc, from.group_cubes(group), maker)?;
    Ok(rows)
}

/// The rows for the cubes of a group.
fn rows_of_group<M: StepRows>(
    alloc: Global,
    cubes: &GroupCubes,
    maker: M,
) -> Result<Items<M::Row>, AllocError>
    requires { All (λ (change : ChangeData). change.place + 3 ≤ length change.cube) cubes.now.changes }
    ensures { IfOk result (λ rows. rows ≡ rows_of_group (level_row_by M.Symbol.of_place (M.level_row maker)) (M.report_rows maker)
        (edge_row_by M.Symbol.of_place M.of_change (M.change_row maker))
        (keep_row_by M.Symbol.of_place M.of_change (M.change_row maker)) cubes.now) }
{
    let mut rows = Items::new(alloc);
    add_value_rows(alloc, &mut rows, maker, &cubes.forced)?;
    maker.add_report_rows(alloc, &mut rows, cubes.forced.free.len())?;
    add_change_rows(alloc, &mut rows, maker, cubes.changes.as_slice())?;
    Ok(rows)
}

/// Adds a row for each cube of a change.
fn add_change_rows<M: StepRows>(
    alloc: Global,
    rows: &mut Items<M::Row>,
    maker: M,
    changes: &[ChangeCube],
) -> Result<(), AllocError>
    requires { All (λ (change : ChangeData). change.place + 3 ≤ length change.cube) changes.now }
    ensures { OnOk result (rows.new ≡ rows.old ++ map (change_row (edge_row_by M.Symbol.of_place M.of_change (M.change_row maker))
        (keep_row_by M.Symbol.of_place M.of_change (M.change_row maker))) changes.now) }
{
    for change in changes {
        rows.push(change_row(alloc, maker, change)?)?;
    }
    Ok(())
}

/// The row for the cube of a change.
fn change_row<M: StepRows>(
    alloc: Global,
    maker: M,
    change: &ChangeCube,
) -> Result<M::Row, AllocError>
    requires { change.now.place + 3 ≤ length change.now.cube }
    ensures { IfOk result (λ row. row ≡ change_row (edge_row_by M.Symbol.of_place M.of_change (M.change_row maker))
        (keep_row_by M.Symbol.of_place M.of_change (M.change_row maker)) change.now) }
{
    let symbols = change_symbols::<M>(alloc, change.place, &change.cube)?;
    let row = maker.change_row(symbols, asked_state(change), change.gives)?;
    Ok(row)
}

/// The state that the row for the cube of a change asks for, any where it is unknown: that of the cube, and any where the row
/// keeps the state.
fn asked_state(change: &ChangeCube) -> Trit
    requires { 1 ≤ length change.now.cube }
    ensures { result ≡ asked_state change.now.cube change.now.gives }
{
    match change.gives {
        Some(_) => change.cube.place(change.cube.len() - 1),
        None => Trit::Unknown,
    }
}
