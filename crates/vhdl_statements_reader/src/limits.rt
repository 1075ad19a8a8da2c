//! What stands in the calls of timing checks: variables, signals, limits and edges. (IEEE 1076.4-2000, VitalSetupHoldCheck,
//! VitalRecoveryRemovalCheck and VitalPeriodPulseCheck.)

ghost use Rattle.std.specs.Prelude.{◌≡◌, ◌+◌, ◌<◌, ◌^◌, nat_lt, length, [], ◌∷◌, codes};
ghost use Rattle.grammar_reader.specs.Reading.{read, Reads, ReadsAs};
ghost use Rattle.grammar_reader.specs.Words.{valued};
ghost use Rattle.vhdl_grammar.specs.VhdlRules as rules;
ghost use Rattle.vhdl_grammar.specs.VhdlChecks as spec;

use cell_machine::{CheckKind, Edge};
use grammar_reader::Read;
use vhdl_grammar::{
    Cursor, Declarations, Uses, an_input, condition, either_word, expect_all, numbered, time,
};
use vhdl_tokens::number_of;

/// Whether the data of the check with this number, from 0, are of this type.
fn has_data(scope: &Declarations, is_period: bool, check: usize) -> bool
    ensures { result ≡ spec.has_data scope.now is_period check }
{
    match scope.variables().periods.as_slice().get(check) {
        Some(found) => if is_period { *found } else { !*found },
        None => false,
    }
}

/// The variable that tells of the check with this number, from 0, of so many.
pub fn report(cursor: &mut Cursor, checks: usize, check: usize) -> Read<()>
    requires { check < 2 ^ 63 }
    ensures { Reads (read (rules.this_name (rules.numbered_where (nat_lt check checks) (codes "x_") (check + 1))) cursor.old)
        result cursor.new }
{
    numbered(cursor, check < checks, b"x_", check + 1)
}

/// The variable that tells of the check with this number, from 0, of those that are declared.
fn declared_report(cursor: &mut Cursor, scope: &Declarations, check: usize) -> Read<()>
    requires { check < 2 ^ 63 }
    ensures { Reads (read (rules.this_name
        (rules.numbered_where (nat_lt check (length scope.now.variables.periods)) (codes "x_") (check + 1))) cursor.old) result
        cursor.new }
{
    let checks = scope.variables().periods.len();
    report(cursor, checks, check)
}

/// The data of the check with this number, from 0, which are of this type.
fn data(cursor: &mut Cursor, scope: &Declarations, is_period: bool, check: usize) -> Read<()>
    requires { check < 2 ^ 63 }
    ensures { Reads (read (rules.this_name
        (rules.numbered_where (spec.has_data scope.now is_period check) (codes "d_") (check + 1))) cursor.old) result cursor.new }
{
    let is_there = has_data(scope, is_period, check);
    numbered(cursor, is_there, b"d_", check + 1)
}

/// The variables of the check with this number, from 0, and the input that is tested.
#[tactic(auto, unfolding(vhdl_grammar::specs::VhdlChecks::tested))]
pub fn tested(
    cursor: &mut Cursor,
    scope: &Declarations,
    is_period: bool,
    word: &[u8],
    check: usize,
) -> Read<usize>
    requires { check < 2 ^ 63 }
    ensures { Reads (read (spec.tested scope.now is_period word.now check) cursor.old) result cursor.new }
{
    expect_all(cursor, &[b"(", b"Violation", b"=>"])?;
    declared_report(cursor, scope, check)?;
    expect_all(cursor, &[b",", word, b"=>"])?;
    data(cursor, scope, is_period, check)?;
    expect_all(cursor, &[b",", b"TestSignal", b"=>"])?;
    let pin = an_input(cursor, scope.ports())?;
    cursor.expect(b",")?;
    Ok(pin)
}

/// The input to which a check refers.
#[tactic(auto, unfolding(vhdl_grammar::specs::VhdlChecks::referred))]
pub fn referred(cursor: &mut Cursor, scope: &Declarations) -> Read<usize>
    ensures { Reads (read (spec.referred scope.now) cursor.old) result cursor.new }
{
    expect_all(cursor, &[b"RefSignal", b"=>"])?;
    let pin = an_input(cursor, scope.ports())?;
    cursor.expect(b",")?;
    Ok(pin)
}

/// The condition that has to be 1, behind the word of its look-up; the lists have its own, too, then.
#[tactic(auto, unfolding(vhdl_grammar::specs::VhdlChecks::enabling_condition))]
fn enabling(cursor: &mut Cursor, scope: &Declarations, uses: &mut Uses) -> Read<Option<usize>>
    ensures { ReadsAs (λ when. (when, uses.new)) (read (spec.enabling_condition scope.now uses.old) cursor.old) result
        cursor.new }
{
    let number = condition(cursor, scope.alloc(), scope, uses)?;
    expect_all(cursor, &[b"=", b"'1'"])?;
    Ok(Some(number))
}

/// When a check counts; the lists have that of its condition, too, then.
#[tactic(auto, unfolding(vhdl_grammar::specs::VhdlChecks::enabled, vhdl_grammar::specs::VhdlChecks::always_enabled), using(grammar_reader::proofs::Repeats::choose_begun, grammar_reader::proofs::Repeats::choose_other))]
pub fn enabled(cursor: &mut Cursor, scope: &Declarations, uses: &mut Uses) -> Read<Option<usize>>
    ensures { ReadsAs (λ when. (when, uses.new)) (read (spec.enabled scope.now uses.old) cursor.old) result cursor.new }
{
    expect_all(cursor, &[b"CheckEnabled", b"=>"])?;
    if cursor.is_next(b"VitalTruthTable") {
        cursor.skip();
        return enabling(cursor, scope, uses);
    }
    cursor.expect(b"true")?;
    Ok(None)
}

/// The edge of the reference that stands next.
fn an_edge(cursor: &mut Cursor) -> Read<Edge>
    ensures { Reads (read (valued spec.reference_edge) cursor.old) result cursor.new }
{
    either_word(cursor, b"'R'", Edge::Rise, b"'F'", Edge::Fall)
}

/// The transition of the reference, and the end of the call.
#[tactic(auto, unfolding(vhdl_grammar::specs::VhdlChecks::transition))]
pub fn transition(cursor: &mut Cursor) -> Read<Edge>
    ensures { Reads (read spec.transition cursor.old) result cursor.new }
{
    expect_all(cursor, &[b",", b"RefTransition", b"=>"])?;
    let edge = an_edge(cursor)?;
    expect_all(cursor, &[b")", b";"])?;
    Ok(edge)
}

/// The second limit, which has to be this one.
#[tactic(auto, unfolding(vhdl_grammar::specs::VhdlChecks::same_number), using(grammar_reader::proofs::Values::number_found))]
fn same_number(cursor: &mut Cursor, limit: u64) -> Read<()>
    ensures { Reads (read (spec.same_number limit) cursor.old) result cursor.new }
{
    let found = number_of(cursor.bytes());
    cursor.same_number(found, limit)
}

/// The word of the second limit.
fn low_word(kind: CheckKind) -> &'static [u8]
    ensures { result.now ≡ spec.low_word kind }
{
    match kind {
        CheckKind::Hold => b"HoldLow",
        CheckKind::Setup
        | CheckKind::Recovery
        | CheckKind::Removal
        | CheckKind::Width
        | CheckKind::Period => b"SetupLow",
    }
}

/// The word of the second limit, between the two.
fn expect_low_word(cursor: &mut Cursor, kind: CheckKind) -> Read<()>
    ensures { Reads (read (rules.expect_all (codes "," ∷ spec.low_word kind ∷ codes "=>" ∷ [])) cursor.old) result cursor.new }
{
    let word = low_word(kind);
    expect_all(cursor, &[b",", word, b"=>"])
}

/// The limit for a high and for a low signal, which are one.
#[tactic(auto, unfolding(vhdl_grammar::specs::VhdlChecks::both_limits))]
pub fn both_limits(cursor: &mut Cursor, kind: CheckKind) -> Read<u64>
    ensures { Reads (read (spec.both_limits kind) cursor.old) result cursor.new }
{
    cursor.expect(b"=>")?;
    let limit = time(cursor)?;
    expect_low_word(cursor, kind)?;
    same_number(cursor, limit)?;
    expect_all(cursor, &[b"ps", b","])?;
    Ok(limit)
}

/// One limit.
#[tactic(auto, unfolding(vhdl_grammar::specs::VhdlChecks::one_limit))]
pub fn one_limit(cursor: &mut Cursor) -> Read<u64>
    ensures { Reads (read spec.one_limit cursor.old) result cursor.new }
{
    cursor.expect(b"=>")?;
    let limit = time(cursor)?;
    cursor.expect(b",")?;
    Ok(limit)
}

/// Whether a control is active low, as the edge with which it ends.
#[tactic(auto, unfolding(vhdl_grammar::specs::VhdlChecks::active_low))]
pub fn active_low(cursor: &mut Cursor) -> Read<Edge>
    ensures { Reads (read spec.active_low cursor.old) result cursor.new }
{
    expect_all(cursor, &[b"ActiveLow", b"=>"])?;
    let edge = either_word(cursor, b"true", Edge::Rise, b"false", Edge::Fall)?;
    cursor.expect(b",")?;
    Ok(edge)
}
