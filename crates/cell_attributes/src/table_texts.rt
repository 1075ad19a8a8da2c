//! What is read of the text of a `statetable`.
ghost use Rattle.std.specs.Prelude.{◌≡◌, Ok, IfOk, []};
ghost use Rattle.std.specs.List.{list_all};
ghost use Rattle.std.specs.Option.{option_map};
ghost use Rattle.cell_machine.specs.CellRules.{is_free as is_free_symbol};
ghost use Rattle.liberty_groups.specs.Attributes.{shown};
ghost use Rattle.cell_attributes.specs.StateReadings.{is_uncoupled as is_uncoupled_of, table_text as table_text_of};
ghost use Rattle.cell_attributes.specs.StateReadings.{table_with as table_with_of, table_in as table_in_of, table_found, table_judged};
ghost use Rattle.cell_attributes.specs.StateReadings.{no_table as no_table_of};
ghost use Rattle.cell_attributes.specs.Shown.{shown_arguments};

use crate::held::held_with;
use crate::states::{Arguments, names_in};
use crate::texts::Text;
use cell_machine::Shared;
use liberty_groups::Attribute;
use sqlite_items::Items;
use statetables::{CurrentSymbol, StateTable, TableFault, TableRow, read_table};
use std::alloc::{AllocError, Global};

/// Whether a current symbol is `-`.
fn is_free(symbol: CurrentSymbol) -> bool
    ensures { result ≡ is_free_symbol symbol }
{
    match symbol {
        CurrentSymbol::Low | CurrentSymbol::High => false,
        CurrentSymbol::Any => true,
    }
}

/// Whether a row looks at no present state.
fn is_free_row(row: &TableRow) -> bool
    ensures { result ≡ list_all is_free_symbol row.now.current }
{
    for symbol in row.current.as_slice() {
        if !is_free(*symbol) {
            return false;
        }
    }
    true
}

/// Whether no row looks at a present state.
fn are_free_rows(rows: &[TableRow]) -> bool
    ensures { result ≡ list_all (λ row. list_all is_free_symbol row.current) rows.now }
{
    for row in rows {
        if !is_free_row(row) {
            return false;
        }
    }
    true
}

/// Whether the table has one node, or no row of it looks at a present state.
fn is_uncoupled(table: &StateTable) -> bool
    ensures { result ≡ is_uncoupled_of table.now }
{
    table.nodes <= 1 || are_free_rows(table.rows.as_slice())
}

/// What is read of the text of a table.
#[derive(Drop)]
pub(crate) struct TableReading {
    /// What is wrong with the text.
    pub(crate) text: Text,
    /// The table. Where the text is none, it has no rows.
    pub(crate) table: Shared<StateTable>,
}

/// A table of so many inputs and nodes, without rows.
fn without_rows(alloc: Global, inputs: usize, nodes: usize) -> StateTable
    ensures { result ≡ record { inputs = inputs; nodes = nodes; rows = [] } }
{
    StateTable {
        inputs,
        nodes,
        rows: Items::new(alloc),
    }
}

/// What is wrong with a table whose text stands there.
fn judged(table: &StateTable, at: usize) -> Text
    ensures { result ≡ table_judged at (Ok table.now) }
{
    if is_uncoupled(table) {
        Text::Absent
    } else {
        Text::Coupled(at)
    }
}

/// Both of a reading.
fn reading_with(alloc: Global, text: Text, table: StateTable) -> Result<TableReading, AllocError>
    ensures { IfOk result (λ reading. reading ≡ record { text = text; table = table }) }
{
    let (text, table) = held_with(text, Shared::new(alloc, table))?;
    Ok(TableReading { text, table })
}

/// What is read of the text of a table of so many inputs and nodes.
fn table_reading(
    alloc: Global,
    inputs: usize,
    nodes: usize,
    attribute: Option<Attribute<'_>>,
) -> Result<TableReading, AllocError>
    ensures text { IfOk result (λ reading. reading.text ≡ table_text_of inputs nodes (option_map shown attribute.entry)) }
    ensures table { IfOk result (λ reading. reading.table ≡ table_in_of inputs nodes (option_map shown attribute.entry)) }
{
    let Some(attribute) = attribute else {
        return reading_with(alloc, Text::Absent, without_rows(alloc, inputs, nodes));
    };
    let malformed = Text::Malformed(attribute.at);
    match read_table(alloc, attribute.text, inputs, nodes) {
        Ok(table) => {
            let text = judged(&table, attribute.at);
            reading_with(alloc, text, table)
        }
        Err(TableFault::RowWidth(_)) => {
            reading_with(alloc, malformed, without_rows(alloc, inputs, nodes))
        }
        Err(TableFault::BadSymbol { .. }) => {
            reading_with(alloc, malformed, without_rows(alloc, inputs, nodes))
        }
        Err(TableFault::Memory) => Err(AllocError),
    }
}

/// The table of a group that is none: without rows.
pub(crate) fn no_table(alloc: Global) -> Result<Shared<StateTable>, AllocError>
    ensures { IfOk result (λ table. table ≡ no_table_of) }
{
    Shared::new(alloc, without_rows(alloc, 0, 0))
}

/// What is read of the text of a table, where its group has two arguments.
pub(crate) fn table_with(
    alloc: Global,
    arguments: Option<Arguments<'_>>,
    attribute: Option<Attribute<'_>>,
) -> Result<TableReading, AllocError>
    ensures text { IfOk result (λ reading. reading.text ≡ table_with_of (option_map shown_arguments arguments.entry)
        (option_map shown attribute.entry)) }
    ensures table { IfOk result (λ reading. reading.table ≡ table_found (option_map shown_arguments arguments.entry)
        (option_map shown attribute.entry)) }
{
    let Some(arguments) = arguments else {
        return reading_with(alloc, Text::Absent, without_rows(alloc, 0, 0));
    };
    let inputs = names_in(alloc, arguments.first)?;
    let nodes = names_in(alloc, arguments.second)?;
    table_reading(alloc, inputs.len(), nodes.len(), attribute)
}
