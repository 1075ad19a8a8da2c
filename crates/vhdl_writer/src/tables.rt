//! The constants of an architecture: its tables. (IEEE 1076.4-2000, VitalTruthTableType and VitalStateTableType.)
ghost use Rattle.std.specs.Prelude.{◌≡◌, codes, count_by, take};
ghost use Rattle.vhdl_writer.specs.Tables.{row_start, state_row_text, truth_row_text, truth_rows_text, constant_text};
ghost use Rattle.vhdl_writer.specs.Tables.{state_constant_text, condition_constant_text, is_looked_up, table_number};
ghost use Rattle.vhdl_writer.specs.Tables.{output_table_text, output_constant_text};

use crate::parts::{At, Each, ItemText};
use crate::symbols::{Columns, Quoted, level_symbol, next_symbol, value_symbol};
use text_io::{Bytes, Decimal, Desk, Line, OutSlot, Part, Put, parts};
use vital_models::{OutValue, TruthRow, TruthTable, VEntity, VOutput, VState, VStateRow, VTruth};

/// What stands before the symbols of the row with this number, from 1, of so many rows.
fn row_start(count: usize, number: usize) -> &'static [u8]
    ensures { result.now ≡ row_start count number }
{
    if count == 1 {
        b"\n    0 => ("
    } else if number == 1 {
        b"\n    ("
    } else {
        b",\n    ("
    }
}

/// A row of a state's table at its place.
type StateRowAt<'a> = At<'a, VStateRow>;

/// Rows of a table, of so many.
#[derive(Drop)]
struct Rows(usize);

impl ItemText<VStateRow> for Rows {
    ghost text = { λ m n row. state_row_text m.0 n row };

    #[tactic(auto, unfolding(crate::specs::Tables::state_row_text))]
    fn put<D: Desk>(&self, at: &StateRowAt, line: &mut Line, desk: &mut D, slot: OutSlot) -> Put {
        parts!(
            Bytes(row_start(self.0, at.number)),
            Each(Columns, at.item.inputs.as_slice()),
            Quoted(level_symbol(at.item.state)),
            Bytes(b", "),
            Quoted(next_symbol(at.item.result)),
            Bytes(b")")
        )
        .put(line, desk, slot)
    }
}

impl ItemText<TruthRow> for Rows {
    ghost text = { λ m n row. truth_row_text m.0 n row };

    #[tactic(auto, unfolding(crate::specs::Tables::truth_row_text))]
    fn put<D: Desk>(&self, at: &At<TruthRow>, line: &mut Line, desk: &mut D, slot: OutSlot) -> Put {
        let start = Bytes(row_start(self.0, at.number));
        let columns = Each(Columns, at.item.inputs.as_slice());
        let result = Quoted(value_symbol(at.item.result));
        parts!(start, columns, result, Bytes(b")")).put(line, desk, slot)
    }
}

/// The constant of a table with this number: what it begins with, its type, and its rows.
#[derive(Drop)]
struct Constant<'a, P>(&'a [u8], u128, &'a [u8], P);

impl<P: Part> Part for Constant<'_, P> {
    ghost text = { λ m. constant_text m.0.now m.1 m.2.now (P.text m.3) };

    fn put<D: Desk>(&self, line: &mut Line, desk: &mut D, slot: OutSlot) -> Put {
        parts!(
            Bytes(self.0),
            Decimal(self.1),
            Bytes(self.2),
            &self.3,
            Bytes(b");\n")
        )
        .put(line, desk, slot)
    }
}

/// The constant of a truth table with this number, which begins so.
#[derive(Drop)]
struct TruthConstant<'a>(&'a [u8], u128, &'a TruthTable);

impl Part for TruthConstant<'_> {
    ghost text = { λ m. constant_text m.0.now m.1 (codes " : VitalTruthTableType := (") (truth_rows_text m.2.now) };

    fn put<D: Desk>(&self, line: &mut Line, desk: &mut D, slot: OutSlot) -> Put {
        let items = self.2.rows.as_slice();
        let rows = Each(Rows(items.len()), items);
        Constant(self.0, self.1, b" : VitalTruthTableType := (", rows).put(line, desk, slot)
    }
}

/// Constants of the tables of states, of conditions, and of those outputs that have one.
#[derive(Drop)]
pub(crate) struct ConstantLines<'a>(pub(crate) &'a VEntity);

impl ItemText<VState> for ConstantLines<'_> {
    ghost text = { λ _ n state. state_constant_text n state };

    #[tactic(auto, unfolding(crate::specs::Tables::state_constant_text, crate::specs::Tables::state_rows_text))]
    fn put<D: Desk>(&self, at: &At<VState>, line: &mut Line, desk: &mut D, slot: OutSlot) -> Put {
        let items = at.item.table.rows.as_slice();
        let rows = Each(Rows(items.len()), items);
        let between = b" : VitalStateTableType := (";
        Constant(b"  constant k_", at.number as u128, between, rows).put(line, desk, slot)
    }
}

impl ItemText<VTruth> for ConstantLines<'_> {
    ghost text = { λ _ n truth. condition_constant_text n truth };

    #[tactic(auto, unfolding(crate::specs::Tables::condition_constant_text))]
    fn put<D: Desk>(&self, at: &At<VTruth>, line: &mut Line, desk: &mut D, slot: OutSlot) -> Put {
        let number = at.number as u128;
        TruthConstant(b"  constant c_", number, &at.item.table).put(line, desk, slot)
    }
}

/// Whether an output has a table.
#[tactic(auto, unfolding(crate::specs::Tables::is_looked_up))]
fn is_looked_up(output: &VOutput) -> bool
    ensures { result ≡ is_looked_up output.now }
{
    match output.value {
        OutValue::Constant(_) => false,
        OutValue::Table { .. } => true,
    }
}

/// How many of these outputs have a table.
fn tables_in(outputs: &[VOutput]) -> usize
    ensures { result ≡ count_by is_looked_up outputs.now }
{
    let mut found = 0;
    for output in outputs {
        if is_looked_up(output) {
            found += 1;
        }
    }
    found
}

/// How many of the first `count` outputs have a table.
#[tactic(auto, using(std::proofs::lemmas::List::take_min))]
fn tables_before(outputs: &[VOutput], count: usize) -> usize
    ensures { result ≡ count_by is_looked_up (take count outputs.now) }
{
    tables_in(&outputs[..count.min(outputs.len())])
}

/// The number of the table of the output with this number, from 1.
pub(crate) fn table_number(entity: &VEntity, number: usize) -> u128
    ensures { result ≡ table_number entity.now number }
{
    let before = tables_before(entity.outputs.as_slice(), number.saturating_sub(1));
    entity.states.len() as u128 + (before as u128 + 1)
}

/// The constant of a table of the output with this number.
#[derive(Drop)]
struct OutputTable<'a>(&'a VEntity, usize, &'a TruthTable);

impl Part for OutputTable<'_> {
    ghost text = { λ m. output_table_text m.0.now m.1 m.2.now };

    fn put<D: Desk>(&self, line: &mut Line, desk: &mut D, slot: OutSlot) -> Put {
        let number = table_number(self.0, self.1);
        TruthConstant(b"  constant k_", number, self.2).put(line, desk, slot)
    }
}

impl ItemText<VOutput> for ConstantLines<'_> {
    ghost text = { λ m n output. output_constant_text m.0.now n output };

    fn put<D: Desk>(&self, at: &At<VOutput>, line: &mut Line, desk: &mut D, slot: OutSlot) -> Put {
        match &at.item.value {
            OutValue::Constant(_) => line.put(desk, slot, b""),
            OutValue::Table { table, .. } => {
                OutputTable(self.0, at.number, table).put(line, desk, slot)
            }
        }
    }
}
