//! The violation of the checks, and the calls of state tables. (IEEE 1076.4-2000, VitalStateTable; IEEE 1076-1993, 8.5.)

ghost use Rattle.std.specs.Prelude.{◌+◌, ◌<◌, ◌^◌, nat_lt, length};
ghost use Rattle.grammar_reader.specs.Reading.{read, Reads};
ghost use Rattle.vhdl_grammar.specs.VhdlRules as rules;
ghost use Rattle.vhdl_grammar.specs.VhdlChecks as spec;

use crate::columns::columns_of;
use crate::limits::report;
use grammar_reader::{Read, RepeatedPart, Stop, one_or_more, while_next};
use sqlite_items::Items;
use vhdl_grammar::{Columns, Cursor, Declarations, Vhdl, expect_all, numbered};

/// The report of a check that stands behind those of so many, of this many checks.
#[derive(Drop)]
struct NextReport {
    checks: usize,
    ghost few: { checks < 2 ^ 63 },
}

impl RepeatedPart<Vhdl> for NextReport {
    type Found = usize;

    ghost reading = { λ report before s. read (spec.next_report report.checks before) s };

    #[tactic(auto, unfolding(vhdl_grammar::specs::VhdlChecks::next_report))]
    fn next(&self, cursor: &mut Cursor<'_>, before: usize) -> Read<usize> {
        if before >= self.checks {
            return Err(Stop::Refused(cursor.no_name()));
        }
        report(cursor, self.checks, before)?;
        Ok(before + 1)
    }
}

/// The reports of so many checks, in order.
#[tactic(auto, unfolding(vhdl_grammar::specs::VhdlChecks::any_report))]
fn any_report(cursor: &mut Cursor, checks: usize) -> Read<()>
    requires { checks < 2 ^ 63 }
    ensures { Reads (read (spec.any_report checks) cursor.old) result cursor.new }
{
    expect_all(cursor, &[b"viol", b":="])?;
    let count = one_or_more(cursor, b"or", &NextReport { checks }, 0)?;
    cursor.go_on_where(count == checks)?;
    cursor.expect(b";")
}

/// What the violation is, where there are checks.
#[tactic(auto, using(crate::proofs::NextChecks::violation_some))]
pub fn violation(cursor: &mut Cursor, scope: &Declarations) -> Read<()>
    ensures { Reads (read (spec.violation (length scope.now.variables.periods)) cursor.old) result cursor.new }
{
    let checks = scope.variables().periods.as_slice().len();
    if checks == 0 {
        return Ok(());
    }
    any_report(cursor, checks)
}

/// The name of a word for the state with this number, from 0.
fn state_word(cursor: &mut Cursor, scope: &Declarations, word: &[u8], state: usize) -> Read<()>
    requires { state < 2 ^ 63 }
    ensures { Reads (read (rules.this_name
        (rules.numbered_where (nat_lt state (length scope.now.tables.states)) word.now (state + 1))) cursor.old) result
        cursor.new }
{
    let is_there = state < scope.tables().states.len();
    numbered(cursor, is_there, word, state + 1)
}

/// The variables and the table of the next state, behind these calls and the word of this one.
#[tactic(auto, unfolding(vhdl_grammar::specs::VhdlChecks::state_call_start))]
fn state_call_start(cursor: &mut Cursor, scope: &Declarations, states: &[Columns]) -> Read<()>
    ensures { Reads (read (spec.state_call_start scope.now (length states.now)) cursor.old) result cursor.new }
{
    let state = states.len();
    expect_all(cursor, &[b"(", b"Result", b"=>"])?;
    state_word(cursor, scope, b"s_", state)?;
    expect_all(cursor, &[b",", b"PreviousDataIn", b"=>"])?;
    state_word(cursor, scope, b"p_", state)?;
    expect_all(cursor, &[b",", b"StateTable", b"=>"])?;
    state_word(cursor, scope, b"k_", state)?;
    expect_all(cursor, &[b",", b"DataIn", b"=>", b"("])
}

/// A call of the table of a state, behind its word.
#[derive(Drop)]
struct StateCall<'a>(&'a Declarations);

impl RepeatedPart<Vhdl> for StateCall<'_> {
    type Found = Items<Columns>;

    ghost reading = { λ call states s. read (spec.state_call call.0.now states) s };

    #[tactic(auto, unfolding(vhdl_grammar::specs::VhdlChecks::state_call))]
    fn next(&self, cursor: &mut Cursor<'_>, mut states: Items<Columns>) -> Read<Items<Columns>> {
        state_call_start(cursor, self.0, states.as_slice())?;
        let columns = columns_of(cursor, self.0, states.len())?;
        expect_all(cursor, &[b")", b";"])?;
        states.push(columns)?;
        Ok(states)
    }
}

/// The calls, one for each state.
#[tactic(auto, unfolding(vhdl_grammar::specs::VhdlChecks::state_calls))]
pub fn state_calls(cursor: &mut Cursor, scope: &Declarations) -> Read<Items<Columns>>
    ensures { Reads (read (spec.state_calls scope.now) cursor.old) result cursor.new }
{
    let none = Items::new(scope.alloc());
    let states = while_next(cursor, b"VitalStateTable", &StateCall(scope), none)?;
    cursor.go_on_where(states.len() == scope.tables().states.len())?;
    Ok(states)
}
