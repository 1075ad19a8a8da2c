//! Laws of the VHDL text that this project writes: it reads back as what it was written of. The functions do nothing.
#![tactic(auto)]

ghost use Rattle.written_entities.specs.Laws.{WrittenTruthTablesReadBack, WrittenStateTablesReadBack, WrittenEntitiesReadBack};

/// A law: the aggregate that is written of a truth table is the text of this table, and of no other. (IEEE 1076.4-2000,
/// VitalTruthTableType.)
pub fn written_truth_table_reads_back()
    ensures { WrittenTruthTablesReadBack }
{}

/// A law: the aggregate that is written of the table of a state is the text of this table, and of no other. (IEEE 1076.4-2000,
/// VitalStateTableType.)
pub fn written_state_table_reads_back()
    ensures { WrittenStateTablesReadBack }
{}

/// A law: the text that is written of well formed entities is the text of these entities, and of no others. (IEEE 1076-1993, 1.1
/// and 1.2; IEEE 1076.4-2000.)
pub fn written_entities_read_back()
    ensures { WrittenEntitiesReadBack }
{}
