//! The tables of states. (IEEE 1076.4-2000, VitalStateTableType.)

ghost use Rattle.std.specs.Prelude.{◌≡◌, length};
ghost use Rattle.grammar_reader.specs.declared.refusal.Refusal.TheVariants.{Syntax};
ghost use Rattle.grammar_reader.specs.Reading.{read, Token, Reads};
ghost use Rattle.vhdl_grammar.specs.VhdlTables as spec;

use crate::rows::{RowEntry, TableRow, first_entries, rows_of};
use crate::symbols::{has_edge, is_edge, result_at, state_at, symbol_of};
use grammar_reader::{Read, Refusal, Stop};
use sqlite_items::Items;
use std::alloc::Global;
use vhdl_grammar::Cursor;
use vital_tables::{Trits, VNext, VStateRow, VStateTable, VSymbol};

/// A symbol of a row, behind these.
fn a_symbol(cursor: &mut Cursor<'_>, symbols: &[VSymbol]) -> Read<VSymbol>
    ensures { Reads (read (Token (λ x. spec.next_by symbols.now (spec.symbol_of x)) Syntax) cursor.old) result cursor.new }
{
    let Some(symbol) = symbol_of(cursor.bytes()) else {
        return Err(Stop::Refused(Refusal::Syntax));
    };
    if is_edge(symbol) && has_edge(symbols) {
        return Err(Stop::Refused(Refusal::TwoEdges));
    }
    cursor.skip();
    Ok(symbol)
}

impl RowEntry for VSymbol {
    ghost reading = { λ symbols s. read (spec.next_symbol symbols) s };

    #[tactic(auto, unfolding(vhdl_grammar::specs::VhdlTables::next_symbol))]
    fn next(cursor: &mut Cursor<'_>, symbols: &[VSymbol]) -> Read<VSymbol> {
        let symbol = a_symbol(cursor, symbols)?;
        Ok(symbol)
    }
}

/// The row of these inputs, where it has a state and what it gives.
fn state_row_with(
    inputs: Items<VSymbol>,
    state: Option<Trits>,
    next: Option<VNext>,
) -> Option<VStateRow>
    ensures { result ≡ spec.state_row_with inputs state next }
{
    match (state, next) {
        (Some(state), Some(result)) => Some(VStateRow {
            inputs,
            state,
            result,
        }),
        _ => None,
    }
}

impl TableRow for VStateRow {
    type Entry = VSymbol;

    ghost row_of = { spec.state_row_of };

    ghost input_count = { λ row. length row.inputs };

    fn row_of(found: Items<VSymbol>) -> Option<VStateRow>
        ensures { result ≡ spec.state_row_of found }
    {
        if found.len() <= 2 {
            return None;
        }
        let columns = found.len() - 2;
        let state = state_at(found.as_slice(), columns);
        let next = result_at(found.as_slice(), columns + 1);
        state_row_with(first_entries(found, columns), state, next)
    }

    fn input_count(&self) -> usize {
        self.inputs.len()
    }
}

/// The table of a state.
#[tactic(auto, unfolding(vhdl_grammar::specs::VhdlTables::state_table, vhdl_grammar::specs::VhdlTables::state_row, vhdl_grammar::specs::VhdlTables::symbols, vhdl_grammar::specs::VhdlRules::elements, vhdl_grammar::specs::VhdlRules::only_element, vhdl_grammar::specs::VhdlRules::several_elements, vhdl_grammar::specs::VhdlRules::more_elements))]
pub fn state_table(cursor: &mut Cursor<'_>, alloc: Global) -> Read<VStateTable>
    ensures { Reads (read spec.state_table cursor.old) result cursor.new }
{
    let rows = rows_of(cursor, alloc)?;
    Ok(VStateTable { rows })
}
