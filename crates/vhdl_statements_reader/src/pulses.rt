//! What the checks of one signal check: the widths of pulses, and periods. (IEEE 1076.4-2000, VitalPeriodPulseCheck.)

ghost use Rattle.std.specs.Prelude.{◌≡◌};
ghost use Rattle.std.specs.Option.{option_map};
ghost use Rattle.grammar_reader.specs.Reading.{read, ReadsAs};
ghost use Rattle.grammar_reader.specs.Words.{valued};
ghost use Rattle.vhdl_grammar.specs.VhdlChecks as spec;
ghost use Rattle.vhdl_statements_reader.specs.Checked.{pulse_as};

use cell_machine::{CheckKind, Edge, Event};
use grammar_reader::{Read, Refusal, Stop};
use udp_tables::TimingCheck;
use vhdl_grammar::Cursor;
use vhdl_tokens::is_same;

/// What is checked of one signal: the kind, and the edges of the earlier and of the later event.
#[derive(Clone, Copy)]
pub struct Pulse {
    /// What is checked.
    pub kind: CheckKind,
    /// The edge of the earlier event.
    pub first: Edge,
    /// The edge of the later event.
    pub second: Edge,
}

/// What is checked of one signal, by the word of the limit.
fn pulse_of(token: &[u8]) -> Option<Pulse>
    ensures { option_map pulse_as result ≡ spec.pulse_of token.now }
{
    let (kind, first, second) = if is_same(token, b"PulseWidthHigh") {
        (CheckKind::Width, Edge::Rise, Edge::Fall)
    } else if is_same(token, b"PulseWidthLow") {
        (CheckKind::Width, Edge::Fall, Edge::Rise)
    } else if is_same(token, b"Period") {
        (CheckKind::Period, Edge::Any, Edge::Any)
    } else {
        return None;
    };
    Some(Pulse {
        kind,
        first,
        second,
    })
}

/// What is checked of one signal, by the word that stands next.
#[tactic(auto, using(crate::proofs::NextChecks::pulse_some, crate::proofs::NextChecks::pulse_none))]
pub fn a_pulse(cursor: &mut Cursor) -> Read<Pulse>
    ensures { ReadsAs pulse_as (read (valued spec.pulse_of) cursor.old) result cursor.new }
{
    let Some(pulse) = pulse_of(cursor.bytes()) else {
        return Err(Stop::Refused(Refusal::Syntax));
    };
    cursor.skip();
    Ok(pulse)
}

/// The check of one signal.
pub fn pulse_check(pulse: Pulse, pin: usize, limit: u64, condition: Option<usize>) -> TimingCheck
    ensures { result ≡ spec.pulse_check (pulse_as pulse) pin limit condition }
{
    TimingCheck {
        kind: pulse.kind,
        first: Event {
            pin,
            edge: pulse.first,
        },
        second: Event {
            pin,
            edge: pulse.second,
        },
        limit,
        condition,
    }
}
