//! Calls of timing checks. (IEEE 1076.4-2000, VitalSetupHoldCheck, VitalRecoveryRemovalCheck and VitalPeriodPulseCheck.)
ghost use Rattle.std.specs.Prelude.{◌≡◌};
ghost use Rattle.vhdl_writer.specs.Statements.{enabled_text, test_at, reference_at, by_edge, transition_text, high_word};
ghost use Rattle.vhdl_writer.specs.Statements.{low_word, limited_text, referred_text, referring_text, setup_hold_text};
ghost use Rattle.vhdl_writer.specs.Statements.{recovery_word, recovery_removal_text, pulse_word, period_pulse_text, check_text};

use crate::names::{Condition, port_at};
use crate::parts::{CheckAt, InEntity, ItemText};
use crate::twice_numbered::TwiceNumbered;
use cell_machine::{CheckKind, Edge, Event};
use text_io::{Bytes, Decimal, Desk, Line, OutSlot, Part, Put, parts};
use udp_tables::TimingCheck;
use vital_models::VEntity;

/// When a check of an entity counts.
#[derive(Drop)]
struct Enabled<'a>(&'a VEntity, Option<usize>);

impl Part for Enabled<'_> {
    ghost text = { λ m. enabled_text m.0.now m.1 };

    #[tactic(auto, unfolding(crate::specs::Statements::one_text))]
    fn put<D: Desk>(&self, line: &mut Line, desk: &mut D, slot: OutSlot) -> Put {
        match self.1 {
            Some(number) => {
                parts!(Condition(self.0, number), Bytes(b" = '1'")).put(line, desk, slot)
            }
            None => line.put(desk, slot, b"true"),
        }
    }
}

/// A check of an entity, with its number, from 1.
#[derive(Clone, Copy)]
struct Call<'a> {
    entity: &'a VEntity,
    number: usize,
    check: &'a TimingCheck,
}

/// The event of the test signal: of setup and hold the data, of recovery and removal the control.
fn test_of(check: &TimingCheck) -> Event
    ensures { result ≡ test_at check.now check.now.kind }
{
    match check.kind {
        CheckKind::Hold | CheckKind::Removal => check.second,
        _ => check.first,
    }
}

/// The event of the reference.
fn reference_of(check: &TimingCheck) -> Event
    ensures { result ≡ reference_at check.now check.now.kind }
{
    match check.kind {
        CheckKind::Hold | CheckKind::Removal => check.first,
        _ => check.second,
    }
}

/// One of two texts, for a rise and for a fall.
fn by_edge<'a>(rise: &'a [u8], fall: &'a [u8], edge: Edge) -> &'a [u8]
    ensures { result.now ≡ by_edge rise.now fall.now edge }
{
    match edge {
        Edge::Fall => fall,
        _ => rise,
    }
}

/// The edge of the reference, and the end of the call.
fn transition_text(edge: Edge) -> &'static [u8]
    ensures { result.now ≡ transition_text edge }
{
    by_edge(
        b", RefTransition => 'R');\n",
        b", RefTransition => 'F');\n",
        edge,
    )
}

/// One of two words: the first where a check is of this kind.
macro_rules! word_of {
    ($kind:expr, $one:ident, $word:literal, $other:literal) => {
        match $kind {
            CheckKind::$one => $word,
            _ => $other,
        }
    };
}

/// The word before the first limit of setup and of hold.
fn high_word(kind: CheckKind) -> &'static [u8]
    ensures { result.now ≡ high_word kind }
{
    word_of!(kind, Hold, b", HoldHigh => ", b", SetupHigh => ")
}

/// The word before the second limit of setup and of hold.
fn low_word(kind: CheckKind) -> &'static [u8]
    ensures { result.now ≡ low_word kind }
{
    word_of!(kind, Hold, b" ps, HoldLow => ", b" ps, SetupLow => ")
}

/// The limit of a check behind a word, and what stands behind the limit.
#[derive(Drop)]
struct Limited<'a, P>(&'a [u8], &'a TimingCheck, P);

impl<P: Part> Part for Limited<'_, P> {
    ghost text = { λ m. limited_text m.0.now m.1.now (P.text m.2) };

    fn put<D: Desk>(&self, line: &mut Line, desk: &mut D, slot: OutSlot) -> Put {
        parts!(Bytes(self.0), Decimal(self.1.limit as u128), &self.2).put(line, desk, slot)
    }
}

/// When a check that has a reference counts, and the edge of its reference.
#[derive(Drop)]
struct Referred<'a>(&'a VEntity, &'a TimingCheck);

impl Part for Referred<'_> {
    ghost text = { λ m. referred_text m.0.now m.1.now };

    fn put<D: Desk>(&self, line: &mut Line, desk: &mut D, slot: OutSlot) -> Put {
        let enabled = Enabled(self.0, self.1.condition);
        let reference = reference_of(self.1);
        parts!(enabled, Bytes(transition_text(reference.edge))).put(line, desk, slot)
    }
}

/// The call of a check that has a reference: what it begins with, and what stands behind the reference.
#[derive(Drop)]
struct Referring<'a, P>(&'a [u8], Call<'a>, P);

impl<P: Part> Part for Referring<'_, P> {
    ghost text = { λ m. referring_text m.0.now m.1.entity.now m.1.number m.1.check.now (P.text m.2) };

    fn put<D: Desk>(&self, line: &mut Line, desk: &mut D, slot: OutSlot) -> Put {
        let Call {
            entity,
            number,
            check,
        } = self.1;
        let test = test_of(check);
        let reference = reference_of(check);
        TwiceNumbered {
            start: self.0,
            next: b", TimingData => d_",
            number,
            rest: parts!(
                Bytes(b", TestSignal => "),
                Bytes(port_at(entity, test.pin)),
                Bytes(b", RefSignal => "),
                Bytes(port_at(entity, reference.pin)),
                &self.2
            ),
        }
        .put(line, desk, slot)
    }
}

/// The call of VitalSetupHoldCheck for a check.
#[derive(Drop)]
struct SetupHold<'a>(Call<'a>);

impl Part for SetupHold<'_> {
    ghost text = { λ m. setup_hold_text m.0.entity.now m.0.number m.0.check.now };

    fn put<D: Desk>(&self, line: &mut Line, desk: &mut D, slot: OutSlot) -> Put {
        let check = self.0.check;
        let referred = Referred(self.0.entity, check);
        let rest = parts!(Bytes(b" ps, CheckEnabled => "), referred);
        let low = Limited(low_word(check.kind), check, rest);
        let limits = Limited(high_word(check.kind), check, low);
        let start = b"    VitalSetupHoldCheck (Violation => x_";
        Referring(start, self.0, limits).put(line, desk, slot)
    }
}

/// The word before the limit of recovery and of removal.
fn recovery_word(kind: CheckKind) -> &'static [u8]
    ensures { result.now ≡ recovery_word kind }
{
    word_of!(kind, Removal, b", Removal => ", b", Recovery => ")
}

/// The call of VitalRecoveryRemovalCheck for a check.
#[derive(Drop)]
struct RecoveryRemoval<'a>(Call<'a>);

impl Part for RecoveryRemoval<'_> {
    ghost text = { λ m. recovery_removal_text m.0.entity.now m.0.number m.0.check.now };

    fn put<D: Desk>(&self, line: &mut Line, desk: &mut D, slot: OutSlot) -> Put {
        let test = test_of(self.0.check);
        let active = by_edge(
            b" ps, ActiveLow => true, CheckEnabled => ",
            b" ps, ActiveLow => false, CheckEnabled => ",
            test.edge,
        );
        let Call { entity, check, .. } = self.0;
        let rest = parts!(Bytes(active), Referred(entity, check));
        let limit = Limited(recovery_word(check.kind), check, rest);
        let start = b"    VitalRecoveryRemovalCheck (Violation => x_";
        Referring(start, self.0, limit).put(line, desk, slot)
    }
}

/// The word before the limit of a width and of a period.
fn pulse_word(check: &TimingCheck) -> &'static [u8]
    ensures { result.now ≡ pulse_word check.now check.now.kind }
{
    match check.kind {
        CheckKind::Period => b", Period => ",
        _ => by_edge(
            b", PulseWidthHigh => ",
            b", PulseWidthLow => ",
            check.first.edge,
        ),
    }
}

/// The call of VitalPeriodPulseCheck for a check.
#[derive(Drop)]
struct PeriodPulse<'a>(Call<'a>);

impl Part for PeriodPulse<'_> {
    ghost text = { λ m. period_pulse_text m.0.entity.now m.0.number m.0.check.now };

    fn put<D: Desk>(&self, line: &mut Line, desk: &mut D, slot: OutSlot) -> Put {
        let Call { entity, check, .. } = self.0;
        let enabled = Enabled(entity, check.condition);
        let end = parts!(Bytes(b" ps, CheckEnabled => "), enabled, Bytes(b");\n"));
        let pulse = Limited(pulse_word(check), check, end);
        TwiceNumbered {
            start: b"    VitalPeriodPulseCheck (Violation => x_",
            next: b", PeriodData => d_",
            number: self.0.number,
            rest: parts!(
                Bytes(b", TestSignal => "),
                Bytes(port_at(entity, check.first.pin)),
                pulse
            ),
        }
        .put(line, desk, slot)
    }
}

impl ItemText<TimingCheck> for InEntity<'_> {
    ghost text = { λ m n k. check_text m.0.now n k };

    #[tactic(auto, unfolding(crate::specs::Statements::check_text))]
    fn put<D: Desk>(&self, at: &CheckAt, line: &mut Line, desk: &mut D, slot: OutSlot) -> Put {
        let call = Call {
            entity: self.0,
            number: at.number,
            check: at.item,
        };
        match at.item.kind {
            CheckKind::Setup | CheckKind::Hold => SetupHold(call).put(line, desk, slot),
            CheckKind::Recovery | CheckKind::Removal => {
                RecoveryRemoval(call).put(line, desk, slot)
            }
            CheckKind::Width | CheckKind::Period => PeriodPulse(call).put(line, desk, slot),
        }
    }
}
