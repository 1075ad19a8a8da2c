//! The variables of a process. (IEEE 1076-1993, 4.3.1.3; IEEE 1076.4-2000, the types of the data of checks and of delays.)

ghost use Rattle.std.specs.Prelude.{◌≡◌, ◌+◌, ◌<◌, length, IfOk, Some, codes};
ghost use Rattle.grammar_reader.specs.Reading.{read, Reads, ReadsAs};
ghost use Rattle.grammar_reader.specs.Words.{valued};
ghost use Rattle.vhdl_grammar.specs.VhdlRules as rules;
ghost use Rattle.vhdl_grammar.specs.VhdlDeclarations as spec;

use crate::variable_names::{VariableOf, awaits_violation, variable_name};
use grammar_reader::{Read, RepeatedPart, where_read, while_next};
use sqlite_items::Items;
use std::alloc::{AllocError, Global};
use vhdl_grammar::{
    Cursor, Ports, Tables, Variables, Vhdl, either_word, expect_all, numbered, this_number,
    width_at,
};

/// The type of the data of a check.
fn period_type(cursor: &mut Cursor<'_>) -> Read<bool>
    ensures { Reads (read (valued spec.is_period_type) cursor.old) result cursor.new }
{
    either_word(
        cursor,
        b"VitalTimingDataType",
        false,
        b"VitalPeriodDataType",
        true,
    )
}

/// The first data of a check of this type.
fn first_data(is_period: bool) -> &'static [u8]
    ensures { result.now ≡ spec.first_data is_period }
{
    if is_period {
        b"VitalPeriodDataInit"
    } else {
        b"VitalTimingDataInit"
    }
}

/// The name of the data of the next check.
fn data_name(cursor: &mut Cursor<'_>, variables: &Variables) -> Read<()>
    ensures { Reads (read (rules.this_name (Some (rules.numbered (codes "d_") (length variables.now.periods + 1)))) cursor.old)
        result cursor.new }
{
    let number = variables.periods.as_slice().len() + 1;
    numbered(cursor, true, b"d_", number)
}

/// The variables of a check, behind the name of the first of them: whether its data are those of a pulse or of a period.
#[tactic(auto, unfolding(vhdl_grammar::specs::VhdlDeclarations::check_variables))]
fn check_variables(cursor: &mut Cursor<'_>, variables: &Variables) -> Read<bool>
    ensures { ReadsAs (spec.with_check variables.now) (read (spec.check_variables variables.now) cursor.old) result cursor.new }
{
    expect_all(cursor, &[b":", b"X01", b":=", b"'0'", b";", b"variable"])?;
    data_name(cursor, variables)?;
    cursor.expect(b":")?;
    let is_period = period_type(cursor)?;
    expect_all(cursor, &[b":=", first_data(is_period), b";"])?;
    Ok(is_period)
}

/// The variables of the next state, behind the name of the first of them.
#[tactic(auto, unfolding(vhdl_grammar::specs::VhdlDeclarations::state_variables))]
fn state_variables(cursor: &mut Cursor<'_>, tables: &Tables, variables: &Variables) -> Read<()>
    requires { variables.now.states < length tables.now.states }
    ensures { ReadsAs (λ _. spec.with_state variables.now) (read (spec.state_variables tables.now variables.now) cursor.old)
        result cursor.new }
{
    let _bound = tables.states.as_slice().len();
    expect_all(
        cursor,
        &[b":", b"std_logic", b":=", b"'X'", b";", b"variable"],
    )?;
    numbered(cursor, true, b"p_", variables.states + 1)?;
    expect_all(cursor, &[b":", b"std_logic_vector", b"("])?;
    this_number(cursor, 1)?;
    cursor.expect(b"to")?;
    this_number(cursor, width_at(tables, variables.states))?;
    expect_all(
        cursor,
        &[b")", b":=", b"(", b"others", b"=>", b"'X'", b")", b";"],
    )?;
    Ok(())
}

/// The last of these becomes true.
#[tactic(auto, using(crate::proofs::NextVariable::last_true_append))]
pub fn set_last(flags: &mut Items<bool>) -> Result<(), AllocError>
    ensures { IfOk result (λ _. flags.new ≡ spec.last_true flags.old) }
{
    match flags.pop() {
        Some(_) => {
            flags.push(true)?;
            Ok(())
        }
        None => Ok(()),
    }
}

/// A variable, behind its word, which stands behind these then.
#[tactic(auto, unfolding(vhdl_grammar::specs::VhdlDeclarations::variable, vhdl_grammar::specs::VhdlDeclarations::violation_variable, vhdl_grammar::specs::VhdlDeclarations::output_variable, vhdl_grammar::specs::VhdlDeclarations::glitch_variable))]
fn variable(
    cursor: &mut Cursor<'_>,
    ports: &Ports,
    tables: &Tables,
    variables: &mut Variables,
) -> Read<()>
    ensures { ReadsAs (λ _. variables.new) (read (spec.variable ports.now tables.now variables.old) cursor.old) result
        cursor.new }
{
    match variable_name(cursor, ports, tables, variables)? {
        VariableOf::Check => {
            let is_period = check_variables(cursor, variables)?;
            variables.periods.push(is_period)?;
            Ok(())
        }
        VariableOf::Violation => {
            expect_all(cursor, &[b":", b"X01", b":=", b"'0'", b";"])?;
            variables.violation = true;
            Ok(())
        }
        VariableOf::State => {
            let _bound = tables.states.as_slice().len();
            state_variables(cursor, tables, variables)?;
            variables.states += 1;
            Ok(())
        }
        VariableOf::Output => {
            expect_all(cursor, &[b":", b"std_logic", b":=", b"'X'", b";"])?;
            variables.glitches.push(false)?;
            Ok(())
        }
        VariableOf::Glitch => {
            expect_all(cursor, &[b":", b"VitalGlitchDataType", b";"])?;
            set_last(&mut variables.glitches)?;
            Ok(())
        }
    }
}

/// A variable of a process over these ports and tables, behind its word.
#[derive(Drop)]
struct NextVariable<'a> {
    ports: &'a Ports,
    tables: &'a Tables,
}

impl RepeatedPart<Vhdl> for NextVariable<'_> {
    type Found = Variables;

    ghost reading = { λ one variables s. read (spec.variable one.ports.now one.tables.now variables) s };

    #[tactic(auto, using(grammar_reader::proofs::WithRest::reads_before))]
    fn next(&self, cursor: &mut Cursor<'_>, mut variables: Variables) -> Read<Variables> {
        let rest = variable(cursor, self.ports, self.tables, &mut variables);
        where_read(variables, rest)
    }
}

/// Whether the variables of all checks, states and outputs stand.
fn are_declared(ports: &Ports, tables: &Tables, variables: &Variables) -> bool
    ensures { result ≡ spec.are_declared ports.now tables.now variables.now }
{
    !awaits_violation(variables)
        && variables.states == tables.states.len()
        && variables.glitches.len() == ports.outputs().len()
}

/// All variables.
#[tactic(auto, unfolding(vhdl_grammar::specs::VhdlDeclarations::variables))]
pub fn variables(
    cursor: &mut Cursor<'_>,
    alloc: Global,
    ports: &Ports,
    tables: &Tables,
) -> Read<Variables>
    ensures { Reads (read (spec.variables ports.now tables.now) cursor.old) result cursor.new }
{
    let none = Variables {
        periods: Items::new(alloc),
        violation: false,
        states: 0,
        glitches: Items::new(alloc),
    };
    let next = NextVariable { ports, tables };
    let all = while_next(cursor, b"variable", &next, none)?;
    cursor.go_on_where(are_declared(ports, tables, &all))?;
    Ok(all)
}
