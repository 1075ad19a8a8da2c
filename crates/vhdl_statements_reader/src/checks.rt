//! The calls of timing checks. (IEEE 1076.4-2000, VitalSetupHoldCheck, VitalRecoveryRemovalCheck and VitalPeriodPulseCheck.)

ghost use Rattle.std.specs.Prelude.{◌≡◌, false, length, codes};
ghost use Rattle.std.specs.Option.{option_map};
ghost use Rattle.grammar_reader.specs.Reading.{read, Reads, ReadsAs, Many};
ghost use Rattle.grammar_reader.specs.Words.{valued, begins_as};
ghost use Rattle.vhdl_grammar.specs.VhdlChecks as spec;
ghost use Rattle.vhdl_statements_reader.specs.Checked.{checks_of, procedure_kind, timed};

use crate::limits::{active_low, both_limits, enabled, one_limit, referred, tested, transition};
use crate::pulses::{a_pulse, pulse_check};
use cell_machine::{CheckKind, Edge, Event};
use grammar_reader::Read;
use sqlite_items::Items;
use udp_tables::TimingCheck;
use vhdl_grammar::{Cursor, Declarations, Uses, either_word, expect_all};
use vhdl_tokens::is_same;

/// The checks so far, and the lists of the conditions that were looked up.
#[derive(Drop)]
pub struct Checks {
    /// In order.
    pub checks: Items<TimingCheck>,
    /// The inputs of each condition, in the order of their numbers.
    pub uses: Uses,
}

/// The procedures of checks.
#[derive(Clone, Copy)]
enum Procedure {
    SetupHold,
    RecoveryRemoval,
    PeriodPulse,
}

/// The kind of a check of setup or hold that stands next.
fn a_setup_or_hold(cursor: &mut Cursor) -> Read<CheckKind>
    ensures { Reads (read (valued spec.setup_or_hold) cursor.old) result cursor.new }
{
    either_word(
        cursor,
        b"SetupHigh",
        CheckKind::Setup,
        b"HoldHigh",
        CheckKind::Hold,
    )
}

/// The check of these events, in the order in which a kind of check has them.
fn check_with(
    kind: CheckKind,
    test: Event,
    reference: Event,
    limit: u64,
    condition: Option<usize>,
) -> TimingCheck
    ensures { result ≡ spec.check_with kind test reference limit condition }
{
    match kind {
        CheckKind::Hold | CheckKind::Removal => TimingCheck {
            kind,
            first: reference,
            second: test,
            limit,
            condition,
        },
        _ => TimingCheck {
            kind,
            first: test,
            second: reference,
            limit,
            condition,
        },
    }
}

/// The rest of the call of a check of this event and of one of this reference, from where it says when the check counts. The
/// check stands behind the others then.
#[tactic(auto, unfolding(crate::specs::Checked::timed))]
fn timed(
    cursor: &mut Cursor,
    scope: &Declarations,
    found: &mut Checks,
    kind: CheckKind,
    test: Event,
    reference: usize,
    limit: u64,
) -> Read<()>
    ensures { ReadsAs (λ _. checks_of found.new)
        (read (timed scope.now (checks_of found.old) kind test reference limit) cursor.old) result cursor.new }
{
    let when = enabled(cursor, scope, &mut found.uses)?;
    let edge = transition(cursor)?;
    let pin = reference;
    let check = check_with(kind, test, Event { pin, edge }, limit, when);
    found.checks.push(check)?;
    Ok(())
}

/// The variables of the check behind these, and the input that is tested.
fn next_tested(
    cursor: &mut Cursor,
    scope: &Declarations,
    is_period: bool,
    word: &[u8],
    checks: &[TimingCheck],
) -> Read<usize>
    ensures { Reads (read (spec.tested scope.now is_period word.now (length checks.now)) cursor.old) result cursor.new }
{
    tested(cursor, scope, is_period, word, checks.len())
}

/// The variables of the check of two signals behind these, and the input that is tested.
fn timing_data(cursor: &mut Cursor, scope: &Declarations, before: &Checks) -> Read<usize>
    ensures { Reads (read (spec.tested scope.now false (codes "TimingData") (length before.now.checks)) cursor.old) result
        cursor.new }
{
    next_tested(
        cursor,
        scope,
        false,
        b"TimingData",
        before.checks.as_slice(),
    )
}

/// A call of VitalSetupHoldCheck, behind its word, whose check stands behind these then.
#[tactic(auto, unfolding(vhdl_grammar::specs::VhdlChecks::setup_hold, crate::specs::Checked::timed))]
fn setup_hold(cursor: &mut Cursor, scope: &Declarations, found: &mut Checks) -> Read<()>
    ensures { ReadsAs (λ _. checks_of found.new) (read (spec.setup_hold scope.now (checks_of found.old)) cursor.old) result
        cursor.new }
{
    let pin = timing_data(cursor, scope, found)?;
    let edge = Edge::Any;
    let reference = referred(cursor, scope)?;
    let kind = a_setup_or_hold(cursor)?;
    let limit = both_limits(cursor, kind)?;
    let test = Event { pin, edge };
    timed(cursor, scope, found, kind, test, reference, limit)
}

/// A call of VitalRecoveryRemovalCheck, behind its word, whose check stands behind these then.
#[tactic(auto, unfolding(vhdl_grammar::specs::VhdlChecks::recovery_removal, crate::specs::Checked::timed))]
fn recovery_removal(cursor: &mut Cursor, scope: &Declarations, found: &mut Checks) -> Read<()>
    ensures { ReadsAs (λ _. checks_of found.new) (read (spec.recovery_removal scope.now (checks_of found.old)) cursor.old) result
        cursor.new }
{
    let pin = timing_data(cursor, scope, found)?;
    let reference = referred(cursor, scope)?;
    let kind = either_word(
        cursor,
        b"Recovery",
        CheckKind::Recovery,
        b"Removal",
        CheckKind::Removal,
    )?;
    let limit = one_limit(cursor)?;
    let edge = active_low(cursor)?;
    let test = Event { pin, edge };
    timed(cursor, scope, found, kind, test, reference, limit)
}

/// A call of VitalPeriodPulseCheck, behind its word, whose check stands behind these then.
#[tactic(auto, unfolding(vhdl_grammar::specs::VhdlChecks::period_pulse))]
fn period_pulse(cursor: &mut Cursor, scope: &Declarations, found: &mut Checks) -> Read<()>
    ensures { ReadsAs (λ _. checks_of found.new) (read (spec.period_pulse scope.now (checks_of found.old)) cursor.old) result
        cursor.new }
{
    let pin = next_tested(cursor, scope, true, b"PeriodData", found.checks.as_slice())?;
    let pulse = a_pulse(cursor)?;
    let limit = one_limit(cursor)?;
    let when = enabled(cursor, scope, &mut found.uses)?;
    expect_all(cursor, &[b")", b";"])?;
    found.checks.push(pulse_check(pulse, pin, limit, when))?;
    Ok(())
}

/// The procedure that a word calls.
fn procedure_of(token: &[u8]) -> Option<Procedure>
    ensures { option_map procedure_kind result ≡ spec.procedure_of token.now }
{
    if is_same(token, b"VitalSetupHoldCheck") {
        Some(Procedure::SetupHold)
    } else if is_same(token, b"VitalRecoveryRemovalCheck") {
        Some(Procedure::RecoveryRemoval)
    } else if is_same(token, b"VitalPeriodPulseCheck") {
        Some(Procedure::PeriodPulse)
    } else {
        None
    }
}

/// One more check, behind the word of its call, which stands behind these then.
fn check(
    cursor: &mut Cursor,
    scope: &Declarations,
    found: &mut Checks,
    procedure: Procedure,
) -> Read<()>
    ensures { ReadsAs (λ _. checks_of found.new)
        (read (spec.check scope.now (checks_of found.old) (procedure_kind procedure)) cursor.old) result cursor.new }
{
    match procedure {
        Procedure::SetupHold => setup_hold(cursor, scope, found),
        Procedure::RecoveryRemoval => recovery_removal(cursor, scope, found),
        Procedure::PeriodPulse => period_pulse(cursor, scope, found),
    }
}

/// The checks, which stand behind these then.
#[tactic(auto, using(grammar_reader::proofs::Repeats::turn, crate::proofs::NextChecks::procedure_begun, crate::proofs::NextChecks::no_procedure))]
fn more_checks(cursor: &mut Cursor, scope: &Declarations, found: &mut Checks) -> Read<()>
    ensures { ReadsAs (λ _. checks_of found.new)
        (read (Many (λ _. begins_as spec.procedure_of) (spec.check scope.now) (checks_of found.old)) cursor.old) result
        cursor.new }
{
    for _turn in 0..cursor.left() {
        let Some(procedure) = procedure_of(cursor.bytes()) else {
            break;
        };
        cursor.skip();
        check(cursor, scope, found, procedure)?;
    }
    Ok(())
}

/// The checks, one for each of the variables.
#[tactic(auto, unfolding(vhdl_grammar::specs::VhdlChecks::checks))]
pub fn all_checks(cursor: &mut Cursor, scope: &Declarations) -> Read<Checks>
    ensures { ReadsAs checks_of (read (spec.checks scope.now) cursor.old) result cursor.new }
{
    let mut all = Checks {
        checks: Items::new(scope.alloc()),
        uses: Items::new(scope.alloc()),
    };
    more_checks(cursor, scope, &mut all)?;
    cursor.go_on_where(all.checks.len() == scope.variables().periods.len())?;
    Ok(all)
}
