//! What is known of the rows of an entity's tables.
ghost use Rattle.process_runs.specs.TableRows.{entity_rows, value_rows};
ghost use Rattle.std.specs.Prelude.{◌≡◌, ◌<◌, ℕ, length, map, slice_get, Some, IfOk};

use crate::process_rooms::{columns_of, source_count};
use crate::table_rows::TableRows;
use cell_machine::entry;
use sqlite_items::Items;
use std::alloc::{AllocError, Global};
use vital_models::{OutValue, TruthRow, VEntity, VOutput, VState, VTruth};

/// What is known of the rows of all tables of an entity.
#[derive(Drop)]
pub struct EntityRows {
    /// For each state of those of its table.
    pub states: Items<TableRows>,
    /// For each condition of those of its table.
    pub conditions: Items<TableRows>,
    /// For each output of those of its table; a constant has none.
    pub outputs: Items<TableRows>,
}

/// What is known of the rows of all tables of an entity. `AllocError` comes only where memory is wanted and not there.
pub(crate) fn entity_rows(alloc: Global, model: &VEntity) -> Result<EntityRows, AllocError>
    ensures { IfOk result (λ rows. rows ≡ entity_rows model.now) }
{
    let states = rows_of_all(alloc, model.states.as_slice())?;
    let conditions = rows_of_all(alloc, model.conditions.as_slice())?;
    let outputs = rows_of_all(alloc, model.outputs.as_slice())?;
    Ok(EntityRows {
        states,
        conditions,
        outputs,
    })
}

/// A part of an entity that has a table.
pub(crate) trait Tabled {
    ghost use Rattle.process_runs.specs.declared.table_rows.TableRows.{TableRows as Rows};

    /// How many columns its table has.
    ghost columns: { Self → ℕ };

    /// What is known of the rows of its table.
    ghost rows: { Self → Rows };

    /// How many columns its table has.
    fn columns(&self) -> usize
        ensures { result ≡ columns self.now };

    /// What is known of the rows of its table.
    fn rows(&self, alloc: Global) -> Result<TableRows, AllocError>
        ensures { IfOk result (λ known. known ≡ rows self.now) };
}

impl Tabled for VState {
    ghost use Rattle.process_runs.specs.TableRows.{rows_of_state};
    ghost use Rattle.vital_models.specs.Sound.{columns_of};

    ghost columns = { columns_of };

    ghost rows = { rows_of_state };

    fn columns(&self) -> usize {
        columns_of(self)
    }

    fn rows(&self, alloc: Global) -> Result<TableRows, AllocError> {
        TableRows::of(alloc, self.table.rows.as_slice(), columns_of(self))
    }
}

impl Tabled for VTruth {
    ghost use Rattle.process_runs.specs.TableRows.{rows_of_truth};

    ghost columns = { λ truth. length truth.inputs };

    ghost rows = { rows_of_truth };

    fn columns(&self) -> usize {
        self.inputs.len()
    }

    fn rows(&self, alloc: Global) -> Result<TableRows, AllocError> {
        TableRows::of(alloc, self.table.rows.as_slice(), self.inputs.len())
    }
}

impl Tabled for VOutput {
    ghost use Rattle.process_runs.specs.TableRows.{rows_of_value};
    ghost use Rattle.process_runs.specs.EntityRooms.{source_count};

    ghost columns = { λ output. source_count output.value };

    ghost rows = { λ output. rows_of_value output.value };

    fn columns(&self) -> usize {
        source_count(&self.value)
    }

    fn rows(&self, alloc: Global) -> Result<TableRows, AllocError> {
        TableRows::of(alloc, value_rows(&self.value), source_count(&self.value))
    }
}

/// The rows of an output's table; a constant has none.
fn value_rows(value: &OutValue) -> &[TruthRow]
    ensures { result.now ≡ value_rows value.now }
{
    match value {
        OutValue::Constant(_) => &[],
        OutValue::Table { table, .. } => table.rows.as_slice(),
    }
}

/// What is known of the rows of each table.
fn rows_of_all<T: Tabled>(alloc: Global, parts: &[T]) -> Result<Items<TableRows>, AllocError>
    ensures { IfOk result (λ all. all ≡ map T.rows parts.now) }
{
    let mut all = Items::new(alloc);
    for part in parts {
        all.push(part.rows(alloc)?)?;
    }
    Ok(all)
}

/// What is known of the rows of the table of the part with this number.
pub(crate) fn rows_at<'a, T: Tabled>(
    all: &'a Items<TableRows>,
    parts: &Items<T>,
    i: usize,
) -> &'a TableRows
    requires known { all.now ≡ map T.rows parts.now }
    requires inside { i < length parts.now }
    ensures { (part : T) → slice_get parts.now i ≡ Some part → result.now ≡ T.rows part }
{
    entry(all, i)
}
