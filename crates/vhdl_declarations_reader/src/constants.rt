//! The constants of an architecture, which are tables. (IEEE 1076-1993, 4.3.1.1; IEEE 1076.4-2000, the VITAL table types.)

ghost use Rattle.std.specs.Prelude.{◌≡◌, ◌&&◌, nat_eq, length, codes};
ghost use Rattle.std.specs.Option.{option_map};
ghost use Rattle.grammar_rules.specs.Rule.{Then};
ghost use Rattle.grammar_reader.specs.Reading.{read, Reads, ReadsAs};
ghost use Rattle.vhdl_grammar.specs.VhdlRules.{known, expect};
ghost use Rattle.vhdl_grammar.specs.VhdlTables as spec;
ghost use Rattle.vhdl_declarations_reader.specs.Kinds.{constant_kind};

use crate::state_rows::state_table;
use crate::truth_rows::truth_table;
use grammar_reader::{Read, Refusal, RepeatedPart, Stop, where_read, while_next, with_end};
use sqlite_items::Items;
use std::alloc::Global;
use vhdl_grammar::{Cursor, Tables, Vhdl};
use vhdl_tokens::{is_name, is_numbered_name};
use vital_tables::TruthTable;

/// What the next constant is a table of.
#[derive(Clone, Copy)]
pub enum ConstantOf {
    /// A state or an output.
    StateOrOutput,
    /// A condition.
    Condition,
}

/// The constant that a name declares behind these.
fn constant_of(tables: &Tables, token: &[u8]) -> Option<ConstantOf>
    ensures { option_map constant_kind result ≡ spec.constant_of tables.now token.now }
{
    let before = tables.states.as_slice().len() + tables.outputs.as_slice().len();
    if is_numbered_name(token, b"k_", before + 1) {
        return Some(ConstantOf::StateOrOutput);
    }
    if tables.outputs.len() != 0 {
        return None;
    }
    if is_numbered_name(token, b"c_", tables.conditions.as_slice().len() + 1) {
        return Some(ConstantOf::Condition);
    }
    None
}

/// The name of the next constant.
#[tactic(auto, using(crate::proofs::NextConstant::constant_some, crate::proofs::NextConstant::constant_none, grammar_reader::proofs::Values::known_other))]
fn constant_name(cursor: &mut Cursor<'_>, tables: &Tables) -> Read<ConstantOf>
    ensures { ReadsAs constant_kind (read (known (spec.constant_of tables.now)) cursor.old) result cursor.new }
{
    if !is_name(cursor.bytes()) {
        return Err(Stop::Refused(Refusal::Syntax));
    }
    let Some(of) = constant_of(tables, cursor.bytes()) else {
        return Err(Stop::Refused(Refusal::Undefined));
    };
    cursor.skip();
    Ok(of)
}

/// A truth table, behind the `:` of its constant.
#[tactic(auto, unfolding(vhdl_grammar::specs::VhdlTables::assigned_truth_table))]
fn truth_constant(cursor: &mut Cursor<'_>, alloc: Global) -> Read<TruthTable>
    ensures { Reads (read (Then (expect (codes "VitalTruthTableType")) (λ _. spec.assigned_truth_table)) cursor.old) result
        cursor.new }
{
    cursor.expect(b"VitalTruthTableType")?;
    cursor.expect(b":=")?;
    let table = truth_table(cursor, alloc)?;
    with_end(cursor, &[b";"], table)
}

/// The table of a state, behind the type of its constant, which stands behind these tables then.
#[tactic(auto, unfolding(vhdl_grammar::specs::VhdlTables::state_constant))]
fn state_constant(cursor: &mut Cursor<'_>, alloc: Global, tables: &mut Tables) -> Read<()>
    ensures { ReadsAs (λ _. tables.new) (read (spec.state_constant tables.old) cursor.old) result cursor.new }
{
    cursor.expect(b":=")?;
    let table = state_table(cursor, alloc)?;
    cursor.expect(b";")?;
    tables.states.push(table)?;
    Ok(())
}

/// Whether neither the table of a condition nor that of an output stands yet.
fn is_before_truth_tables(tables: &Tables) -> bool
    ensures { result ≡ (spec.is_before_outputs tables.now && nat_eq (length tables.now.conditions) 0) }
{
    tables.outputs.len() == 0 && tables.conditions.len() == 0
}

/// The table of a state or of an output, behind the `:` of its constant, which stands behind these tables then.
#[tactic(auto, unfolding(vhdl_grammar::specs::VhdlTables::output_constant), using(crate::proofs::NextConstant::state_begun, crate::proofs::NextConstant::no_state))]
fn state_or_output(cursor: &mut Cursor<'_>, alloc: Global, tables: &mut Tables) -> Read<()>
    ensures { ReadsAs (λ _. tables.new) (read (spec.constant_by tables.old spec.StateOrOutput) cursor.old) result cursor.new }
{
    if is_before_truth_tables(tables) && cursor.is_next(b"VitalStateTableType") {
        cursor.skip();
        return state_constant(cursor, alloc, tables);
    }
    let table = truth_constant(cursor, alloc)?;
    tables.outputs.push(table)?;
    Ok(())
}

/// A constant, behind its word, whose table stands behind these then.
#[tactic(auto, unfolding(vhdl_grammar::specs::VhdlTables::constant, vhdl_grammar::specs::VhdlTables::condition_constant))]
fn constant(cursor: &mut Cursor<'_>, alloc: Global, tables: &mut Tables) -> Read<()>
    ensures { ReadsAs (λ _. tables.new) (read (spec.constant tables.old) cursor.old) result cursor.new }
{
    let of = constant_name(cursor, tables)?;
    cursor.expect(b":")?;
    match of {
        ConstantOf::StateOrOutput => state_or_output(cursor, alloc, tables),
        ConstantOf::Condition => {
            let table = truth_constant(cursor, alloc)?;
            tables.conditions.push(table)?;
            Ok(())
        }
    }
}

/// A constant, behind its word.
#[derive(Drop)]
struct NextConstant(Global);

impl RepeatedPart<Vhdl> for NextConstant {
    type Found = Tables;

    ghost reading = { λ _ tables s. read (spec.constant tables) s };

    #[tactic(auto, using(grammar_reader::proofs::WithRest::reads_before))]
    fn next(&self, cursor: &mut Cursor<'_>, mut tables: Tables) -> Read<Tables> {
        let rest = constant(cursor, self.0, &mut tables);
        where_read(tables, rest)
    }
}

/// All constants.
#[tactic(auto, unfolding(vhdl_grammar::specs::VhdlTables::constants))]
pub fn constants(cursor: &mut Cursor<'_>, alloc: Global) -> Read<Tables>
    ensures { Reads (read spec.constants cursor.old) result cursor.new }
{
    let none = Tables {
        states: Items::new(alloc),
        conditions: Items::new(alloc),
        outputs: Items::new(alloc),
    };
    while_next(cursor, b"constant", &NextConstant(alloc), none)
}
