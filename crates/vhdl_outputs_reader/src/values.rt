//! The assignments of the variables of outputs. (IEEE 1076.4-2000, VitalTruthTable; IEEE 1076-1993, 8.5.)

ghost use Rattle.std.specs.Prelude.{◌≡◌, ◌+◌, [], nat_lt, nat_eq, length, codes};
ghost use Rattle.grammar_reader.specs.Reading.{read, Reads, ReadsAs, Many, Choice};
ghost use Rattle.grammar_reader.specs.Words.{valued};
ghost use Rattle.vhdl_tokens.specs.Spelling.{is_same};
ghost use Rattle.vhdl_grammar.specs.VhdlRules as rules;
ghost use Rattle.vhdl_grammar.specs.VhdlDeclarations as declarations;
ghost use Rattle.vhdl_grammar.specs.VhdlOutputs as spec;

use crate::assigned::Values;
use crate::sources::sources_of;
use grammar_reader::{Read, Refusal, Stop};
use sqlite_items::Items;
use vhdl_grammar::{
    Assigned, Cursor, Declarations, either_word, expect_all, numbered, truth_width,
};
use vhdl_tokens::{is_name, is_numbered_name};

/// How many inputs the table of an output with this number has.
fn output_width(scope: &Declarations, table: usize) -> usize
    ensures { result ≡ spec.output_width scope.now table }
{
    match scope.tables().outputs.get(table) {
        Some(table) => truth_width(table.rows.as_slice()),
        None => 0,
    }
}

/// The name of the table of an output with this number, from 0.
fn table_name(cursor: &mut Cursor, scope: &Declarations, table: usize) -> Read<()>
    ensures { Reads (read (rules.this_name (spec.output_table_name scope.now table)) cursor.old) result cursor.new }
{
    if table >= scope.tables().outputs.as_slice().len() {
        return Err(Stop::Refused(cursor.no_name()));
    }
    let before = scope.tables().states.as_slice().len() + table;
    numbered(cursor, true, b"k_", before + 1)
}

/// A look-up of the table of an output, behind its word.
#[tactic(auto, unfolding(vhdl_grammar::specs::VhdlOutputs::lookup))]
fn lookup(cursor: &mut Cursor, scope: &Declarations, table: usize) -> Read<Assigned>
    ensures { Reads (read (spec.lookup scope.now table) cursor.old) result cursor.new }
{
    expect_all(cursor, &[b"(", b"TruthTable", b"=>"])?;
    table_name(cursor, scope, table)?;
    expect_all(cursor, &[b",", b"DataIn", b"=>", b"("])?;
    let sources = sources_of(cursor, scope, output_width(scope, table))?;
    cursor.expect(b")")?;
    Ok(Assigned::Lookup(sources))
}

/// A look-up of the next table of the outputs, behind these values and its word.
fn next_lookup(cursor: &mut Cursor, scope: &Declarations, values: &Values) -> Read<Assigned>
    ensures { Reads (read (spec.lookup scope.now (spec.lookups values.now)) cursor.old) result cursor.new }
{
    lookup(cursor, scope, values.lookups())
}

/// The bit that stands next.
fn a_bit(cursor: &mut Cursor) -> Read<bool>
    ensures { Reads (read (valued spec.bit) cursor.old) result cursor.new }
{
    either_word(cursor, b"'0'", false, b"'1'", true)
}

/// A constant.
#[tactic(auto, unfolding(vhdl_grammar::specs::VhdlOutputs::a_constant))]
fn a_constant(cursor: &mut Cursor) -> Read<Assigned>
    ensures { Reads (read spec.a_constant cursor.old) result cursor.new }
{
    let one = a_bit(cursor)?;
    Ok(Assigned::Constant(one))
}

/// A value, behind these.
#[tactic(auto, using(grammar_reader::proofs::Repeats::choose_begun, grammar_reader::proofs::Repeats::choose_other))]
fn a_value(cursor: &mut Cursor, scope: &Declarations, values: &Values) -> Read<Assigned>
    ensures { Reads (read (Choice (rules.begins (codes "VitalTruthTable")) (λ _. spec.lookup scope.now (spec.lookups values.now))
        spec.a_constant) cursor.old) result cursor.new }
{
    if !cursor.is_next(b"VitalTruthTable") {
        return a_constant(cursor);
    }
    cursor.skip();
    next_lookup(cursor, scope, values)
}

/// Puts one more value behind these, behind the name of its variable.
#[tactic(auto, unfolding(vhdl_grammar::specs::VhdlOutputs::next_value))]
fn next_value(cursor: &mut Cursor, scope: &Declarations, values: &mut Values) -> Read<()>
    ensures { ReadsAs (λ _. values.new) (read (spec.next_value scope.now values.old) cursor.old) result cursor.new }
{
    cursor.expect(b":=")?;
    let value = a_value(cursor, scope, values)?;
    cursor.expect(b";")?;
    values.add(value)
}

/// Whether an output is left behind these values.
fn awaits_value(scope: &Declarations, values: &Values) -> bool
    ensures { result ≡ nat_lt (length values.now) (declarations.output_count scope.now.ports) }
{
    values.len() < scope.ports().outputs().len()
}

/// Whether a token is the name of the variable behind these values.
fn is_value_name(token: &[u8], values: &Values) -> bool
    ensures { result ≡ is_same token.now (rules.numbered (codes "z_") (length values.now + 1)) }
{
    is_numbered_name(token, b"z_", values.len() + 1)
}

/// Puts the values that follow behind these.
#[tactic(auto, using(grammar_reader::proofs::Repeats::turn, crate::proofs::NextValue::no_value, crate::proofs::NextValue::no_name, crate::proofs::NextValue::other_value, crate::proofs::NextValue::this_value))]
fn more_values(cursor: &mut Cursor, scope: &Declarations, values: &mut Values) -> Read<()>
    ensures { ReadsAs (λ _. values.new)
        (read (Many (spec.begins_value scope.now) (λ found _. spec.next_value scope.now found) values.old) cursor.old) result
        cursor.new }
{
    for _turn in 0..cursor.left() {
        if !awaits_value(scope, values) {
            break;
        }
        if !is_name(cursor.bytes()) {
            break;
        }
        if !is_value_name(cursor.bytes(), values) {
            return Err(Stop::Refused(Refusal::Undefined));
        }
        cursor.skip();
        next_value(cursor, scope, values)?;
    }
    Ok(())
}

/// Whether these are the values of all outputs.
fn are_all_values(scope: &Declarations, values: &Values) -> bool
    ensures { result ≡ nat_eq (length values.now) (declarations.output_count scope.now.ports) }
{
    values.len() == scope.ports().outputs().len()
}

/// Whether these values look up all tables of the outputs.
fn are_all_looked_up(scope: &Declarations, values: &Values) -> bool
    ensures { result ≡ nat_eq (spec.lookups values.now) (length scope.now.tables.outputs) }
{
    values.lookups() == scope.tables().outputs.len()
}

/// A place that no text gets past unless the condition holds, also not with a name.
fn go_on_unnamed(cursor: &Cursor, holds: bool) -> Read<()>
    ensures { Reads (read (rules.go_on_unnamed holds) cursor.now) result cursor.now }
{
    if holds {
        return Ok(());
    }
    Err(Stop::Refused(cursor.no_name()))
}

/// Puts the values of all outputs into a list that has none.
#[tactic(auto, unfolding(vhdl_grammar::specs::VhdlOutputs::values_of))]
fn all_values(cursor: &mut Cursor, scope: &Declarations, values: &mut Values) -> Read<()>
    requires { values.old ≡ [] }
    ensures { ReadsAs (λ _. values.new) (read (spec.values_of scope.now) cursor.old) result cursor.new }
{
    more_values(cursor, scope, values)?;
    cursor.go_on_where(are_all_values(scope, values))?;
    go_on_unnamed(cursor, are_all_looked_up(scope, values))
}

/// The values of all outputs.
pub fn values_of(cursor: &mut Cursor, scope: &Declarations) -> Read<Items<Assigned>>
    ensures { Reads (read (spec.values_of scope.now) cursor.old) result cursor.new }
{
    let mut values = Values::new(scope.alloc());
    all_values(cursor, scope, &mut values)?;
    Ok(values.into_items())
}
