//! Truth tables. (IEEE 1076.4-2000, VitalTruthTableType.)

ghost use Rattle.std.specs.Prelude.{◌≡◌, length};
ghost use Rattle.grammar_reader.specs.Reading.{read, Reads};
ghost use Rattle.grammar_reader.specs.Words.{valued};
ghost use Rattle.vhdl_grammar.specs.VhdlTables as spec;

use crate::rows::{RowEntry, TableRow, first_entries, rows_of};
use crate::symbols::{level_of, value_of};
use grammar_reader::Read;
use sqlite_items::Items;
use std::alloc::Global;
use vhdl_grammar::Cursor;
use vital_tables::{Trits, TruthRow, TruthTable};

/// A level of a row.
#[tactic(auto, using(grammar_reader::proofs::Values::valued_found))]
fn a_level(cursor: &mut Cursor<'_>) -> Read<Trits>
    ensures { Reads (read (valued spec.level_of) cursor.old) result cursor.new }
{
    let found = level_of(cursor.bytes());
    cursor.value(found)
}

impl RowEntry for Trits {
    ghost reading = { λ levels s. read (spec.next_level levels) s };

    #[tactic(auto, unfolding(vhdl_grammar::specs::VhdlTables::next_level))]
    fn next(cursor: &mut Cursor<'_>, _levels: &[Trits]) -> Read<Trits> {
        let level = a_level(cursor)?;
        Ok(level)
    }
}

impl TableRow for TruthRow {
    type Entry = Trits;

    ghost row_of = { spec.truth_row_of };

    ghost input_count = { λ row. length row.inputs };

    fn input_count(&self) -> usize {
        self.inputs.len()
    }

    fn row_of(found: Items<Trits>) -> Option<TruthRow>
        ensures { result ≡ spec.truth_row_of found }
    {
        if found.len() <= 1 {
            return None;
        }
        let columns = found.len() - 1;
        let Some(result) = found.get(columns).and_then(|level| value_of(*level)) else {
            return None;
        };
        Some(TruthRow {
            inputs: first_entries(found, columns),
            result,
        })
    }
}

/// A truth table.
#[tactic(auto, unfolding(vhdl_grammar::specs::VhdlTables::truth_table, vhdl_grammar::specs::VhdlTables::truth_row, vhdl_grammar::specs::VhdlTables::levels, vhdl_grammar::specs::VhdlRules::elements, vhdl_grammar::specs::VhdlRules::only_element, vhdl_grammar::specs::VhdlRules::several_elements, vhdl_grammar::specs::VhdlRules::more_elements))]
pub fn truth_table(cursor: &mut Cursor<'_>, alloc: Global) -> Read<TruthTable>
    ensures { Reads (read spec.truth_table cursor.old) result cursor.new }
{
    let rows = rows_of(cursor, alloc)?;
    Ok(TruthTable { rows })
}
