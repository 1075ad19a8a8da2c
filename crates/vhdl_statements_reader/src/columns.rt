//! The columns of the tables of states, as their calls list them. (IEEE 1076.4-2000, VitalStateTable.)

ghost use Rattle.std.specs.Prelude.{◌≡◌, IfOk};
ghost use Rattle.grammar_reader.specs.Reading.{read, Reads, ReadsAs};
ghost use Rattle.vhdl_grammar.specs.VhdlRules as rules;
ghost use Rattle.vhdl_grammar.specs.VhdlNames as spec;
ghost use Rattle.vhdl_statements_reader.specs.NextColumns.{with_column, MayStand};

use grammar_reader::{Read, RepeatedPart, Stop, with_read};
use std::marker::Model;
use vhdl_grammar::{
    Columns, Cursor, Declarations, Listed, Vhdl, elements, input_of, list_end, unlisted, width_at,
};

/// The columns of a table, with inputs of which each is found at once. Contracts see them as `Columns`.
#[derive(Drop)]
struct ListedColumns {
    violation: bool,
    inputs: Listed,
}

impl Model for ListedColumns {
    ghost use Rattle.vhdl_grammar.specs.declared.scope.Columns.{Columns};

    ghost Value = { Columns };

    ghost view = { λ c. record { violation = c.violation; inputs = c.inputs } };
}

/// How many columns there are.
fn column_count(columns: &ListedColumns) -> usize
    ensures { result ≡ spec.column_count columns.now }
{
    if columns.violation {
        columns.inputs.len() + 1
    } else {
        columns.inputs.len()
    }
}

/// Whether the violation may stand behind these columns.
fn takes_violation(scope: &Declarations, columns: &ListedColumns) -> bool
    ensures { result ≡ spec.takes_violation scope.now columns.now }
{
    scope.variables().periods.len() > 0 && column_count(columns) == 0
}

impl ListedColumns {
    ghost use Rattle.std.specs.Prelude.{◌≡◌, IfOk, IfErr};
    ghost use Rattle.vhdl_statements_reader.specs.NextColumns.{with_column, MayStand};

    /// These columns, and one more behind them: an input, or, as None, the violation.
    fn with(self, column: Option<usize>) -> Read<ListedColumns>
        requires { MayStand self column }
        ensures added { IfOk result (λ more. more ≡ with_column self column) }
        ensures memory { IfErr result (λ stop. stop ≡ Stop.Memory) }
    {
        let ListedColumns { violation, inputs } = self;
        match column {
            None => Ok(ListedColumns {
                violation: true,
                inputs,
            }),
            Some(port) => Ok(ListedColumns {
                violation,
                inputs: inputs.with(port)?,
            }),
        }
    }
}

/// The column that stands next behind these: an input, or, as None, the violation.
#[tactic(auto, unfolding(vhdl_grammar::specs::VhdlNames::next_column), using(crate::proofs::NextColumn::violation, crate::proofs::NextColumn::other, crate::proofs::NextColumn::undefined, crate::proofs::NextColumn::twice, crate::proofs::NextColumn::fits, crate::proofs::NextColumn::none_before))]
fn a_column(
    cursor: &mut Cursor,
    scope: &Declarations,
    columns: &ListedColumns,
) -> Read<Option<usize>>
    ensures reads { ReadsAs (with_column columns.now) (read (spec.next_column scope.now columns.now) cursor.old) result
        cursor.new }
    ensures allowed { IfOk result (MayStand columns.now) }
{
    if takes_violation(scope, columns) && cursor.is_next(b"viol") {
        cursor.skip();
        return Ok(None);
    }
    unlisted!(
        cursor,
        token,
        port = input_of(scope.ports(), token)?,
        columns.inputs.has(port)
    );
    Ok(Some(port))
}

/// A column, behind others.
#[derive(Drop)]
struct NextColumn<'a>(&'a Declarations);

impl RepeatedPart<Vhdl> for NextColumn<'_> {
    type Found = ListedColumns;

    ghost reading = { λ column columns s. read (spec.next_column column.0.now columns) s };

    fn next(&self, cursor: &mut Cursor<'_>, columns: ListedColumns) -> Read<ListedColumns> {
        let column = a_column(cursor, self.0, &columns);
        let (columns, column) = with_read(columns, column)?;
        columns.with(column)
    }
}

/// All columns of a list.
#[tactic(auto, unfolding(vhdl_grammar::specs::VhdlRules::elements, vhdl_grammar::specs::VhdlRules::only_element, vhdl_grammar::specs::VhdlRules::several_elements, vhdl_grammar::specs::VhdlRules::more_elements))]
fn listed_columns(
    cursor: &mut Cursor,
    scope: &Declarations,
    none: ListedColumns,
) -> Read<ListedColumns>
    ensures { Reads (read (rules.elements (spec.next_column scope.now) none) cursor.old) result cursor.new }
{
    elements(cursor, &NextColumn(scope), none)
}

/// The columns of the state with this number, and the end of their list.
#[tactic(auto, unfolding(vhdl_grammar::specs::VhdlNames::columns_of))]
pub fn columns_of(cursor: &mut Cursor, scope: &Declarations, state: usize) -> Read<Columns>
    ensures { Reads (read (spec.columns_of scope.now state) cursor.old) result cursor.new }
{
    let none = ListedColumns {
        violation: false,
        inputs: Listed::new(scope.alloc()),
    };
    let columns = listed_columns(cursor, scope, none)?;
    list_end(
        cursor,
        width_at(scope.tables(), state),
        column_count(&columns),
    )?;
    let ListedColumns { violation, inputs } = columns;
    Ok(Columns {
        violation,
        inputs: inputs.into_items(),
    })
}
