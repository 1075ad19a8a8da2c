//! The variable that a name declares, behind others. (IEEE 1076-1993, 4.3.1.3; which name stands at which place is this project's
//! subset.)

ghost use Rattle.std.specs.Prelude.{◌≡◌, ◌<◌, length, IfOk, Some};
ghost use Rattle.std.specs.Option.{option_map};
ghost use Rattle.grammar_reader.specs.declared.refusal.Refusal.TheVariants.{Syntax};
ghost use Rattle.grammar_reader.specs.Reading.{read, Token, ReadsAs};
ghost use Rattle.vhdl_grammar.specs.VhdlDeclarations as spec;
ghost use Rattle.vhdl_declarations_reader.specs.Kinds.{variable_kind};
ghost use Rattle.vhdl_declarations_reader.specs.declared.variable_names.VariableOf.TheVariants as kind;

use grammar_reader::{Read, Refusal, Stop};
use vhdl_grammar::{Cursor, Ports, Tables, Variables};
use vhdl_tokens::{is_name, is_numbered_name};

/// What a variable is of.
#[derive(Clone, Copy)]
pub enum VariableOf {
    /// A check.
    Check,
    /// The violation.
    Violation,
    /// A state.
    State,
    /// An output.
    Output,
    /// The delays of an output.
    Glitch,
}

/// Whether no variable of a state or of an output stands yet.
fn is_before_states(variables: &Variables) -> bool
    ensures { result ≡ spec.is_before_states variables.now }
{
    variables.states == 0 && variables.glitches.len() == 0
}

/// Whether variables of checks stand, and the one of the violation is next.
pub fn awaits_violation(variables: &Variables) -> bool
    ensures { result ≡ spec.awaits_violation variables.now }
{
    variables.periods.len() > 0 && !variables.violation
}

/// Whether the last of these is false.
pub fn is_last_false(flags: &[bool]) -> bool
    ensures { result ≡ spec.is_last_false flags.now }
{
    match flags.split_last() {
        Some((last, _)) => !*last,
        None => false,
    }
}

/// The variable that a name declares behind these.
fn variable_of(
    ports: &Ports,
    tables: &Tables,
    variables: &Variables,
    token: &[u8],
) -> Option<VariableOf>
    ensures value { option_map variable_kind result ≡ spec.variable_of ports.now tables.now variables.now token.now }
    ensures within { result ≡ Some kind.State → variables.now.states < length tables.now.states }
{
    if is_before_states(variables) && !variables.violation {
        let number = variables.periods.as_slice().len() + 1;
        if is_numbered_name(token, b"x_", number) {
            return Some(VariableOf::Check);
        }
    }
    if awaits_violation(variables) {
        return None;
    }
    if variables.states < tables.states.as_slice().len() {
        if is_numbered_name(token, b"s_", variables.states + 1) {
            return Some(VariableOf::State);
        }
        return None;
    }
    let outputs = variables.glitches.as_slice().len();
    if outputs < ports.outputs().len() && is_numbered_name(token, b"z_", outputs + 1) {
        return Some(VariableOf::Output);
    }
    if is_last_false(variables.glitches.as_slice()) && is_numbered_name(token, b"g_", outputs) {
        return Some(VariableOf::Glitch);
    }
    None
}

/// The name of the next variable.
#[tactic(auto, using(crate::proofs::NextVariable::violation, crate::proofs::NextVariable::other, crate::proofs::NextVariable::some, crate::proofs::NextVariable::none))]
pub fn variable_name(
    cursor: &mut Cursor<'_>,
    ports: &Ports,
    tables: &Tables,
    variables: &Variables,
) -> Read<VariableOf>
    ensures value { ReadsAs variable_kind (read (Token (spec.variable_by ports.now tables.now variables.now) Syntax) cursor.old)
        result cursor.new }
    ensures within { IfOk result (λ of. of ≡ kind.State → variables.now.states < length tables.now.states) }
{
    if awaits_violation(variables) && cursor.is_next(b"viol") {
        cursor.skip();
        return Ok(VariableOf::Violation);
    }
    if !is_name(cursor.bytes()) {
        return Err(Stop::Refused(Refusal::Syntax));
    }
    let Some(of) = variable_of(ports, tables, variables, cursor.bytes()) else {
        return Err(Stop::Refused(Refusal::Undefined));
    };
    cursor.skip();
    Ok(of)
}
