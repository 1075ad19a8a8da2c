//! How many columns tables have. (IEEE 1076.4-2000, the VITAL tables.)

ghost use Rattle.std.specs.Prelude.{◌≡◌};
ghost use Rattle.vhdl_grammar.specs.VhdlTables as tables;
ghost use Rattle.vhdl_grammar.specs.VhdlDeclarations as spec;

use crate::scope::Tables;
use vital_tables::{TruthRow, VStateRow};

/// How many inputs the first row of a state's table has.
pub fn state_width(rows: &[VStateRow]) -> usize
    ensures { result ≡ tables.state_width rows.now }
{
    match rows.first() {
        Some(row) => row.inputs.len(),
        None => 0,
    }
}

/// How many inputs the first row of a truth table has.
pub fn truth_width(rows: &[TruthRow]) -> usize
    ensures { result ≡ tables.truth_width rows.now }
{
    match rows.first() {
        Some(row) => row.inputs.len(),
        None => 0,
    }
}

/// How many columns the table of the state with this number has.
pub fn width_at(tables: &Tables, state: usize) -> usize
    ensures { result ≡ spec.width_at tables.now state }
{
    match tables.states.get(state) {
        Some(table) => state_width(table.rows.as_slice()),
        None => 0,
    }
}
