//! Whether the timing checks of a model report, by the times that they keep, in both languages.
ghost use Rattle.std.specs.Prelude.{◌≡◌, ◌<◌, ◌&&◌, length, nat_eq, replicate, slice_set, slice_index_or, false};
ghost use Rattle.cell_machine.specs.Each.{each};
ghost use Rattle.cell_machine.specs.Edges.{moves};
ghost use Rattle.cell_machine.specs.Report.{happens};
ghost use Rattle.cell_machine.specs.Times.{no_times};
ghost use Rattle.run_parts.specs.PortNumbers.{input_event, input_number};
ghost use Rattle.run_parts.specs.CheckTimes.{stamped, opened, reports_where};

use crate::conditions::Conditions;
use crate::ports::{Ports, input_number};
use cell_machine::{Change, Edge, Event, Times, is_rise, is_within, moves, renewed};
use sqlite_items::Items;
use trit_cubes::Trit;
use udp_tables::TimingCheck;

/// A change of an input, as the timing checks of a model see it.
#[derive(Clone, Copy)]
pub struct InputChange<'a> {
    /// The ports of the model.
    pub ports: Ports<'a>,
    /// The value that the input had.
    pub from: Trit,
    /// The change.
    pub change: Change,
}

/// Whether a change is of this port.
fn is_of(seen: &InputChange, port: usize) -> bool
    ensures { result ≡ nat_eq seen.now.change.pin (input_number seen.now.ports.list.now port) }
{
    seen.change.pin == input_number(&seen.ports, port)
}

/// Whether a change that is of the port of an event, or is not, is this event.
fn counts(is_of: bool, edge: Edge, seen: &InputChange) -> bool
    ensures { result ≡ (is_of && moves edge seen.now.from seen.now.change.to) }
{
    is_of && moves(edge, seen.from, seen.change.to)
}

/// Whether a change is this event of a port.
fn happens(seen: &InputChange, event: Event) -> bool
    ensures { result ≡ happens (input_event seen.now.ports.list.now event) seen.now.from seen.now.change }
{
    counts(is_of(seen, event.pin), event.edge, seen)
}

/// The times that a check keeps after a change, which is of the ports of its first and of its second event where this is said.
fn stamped(
    is_first: bool,
    is_second: bool,
    seen: &InputChange,
    check: &TimingCheck,
    stamps: Times,
) -> Times
    requires first { is_first ≡ nat_eq seen.now.change.pin (input_number seen.now.ports.list.now check.now.first.pin) }
    requires second { is_second ≡ nat_eq seen.now.change.pin (input_number seen.now.ports.list.now check.now.second.pin) }
    ensures { result ≡ stamped seen.now.ports.list.now seen.now.from seen.now.change check.now stamps }
{
    let at = seen.change.at;
    Times {
        event: renewed(counts(is_first, check.first.edge, seen), at, stamps.event),
        rise: renewed(counts(is_second, Edge::Rise, seen), at, stamps.rise),
        fall: renewed(counts(is_second, Edge::Fall, seen), at, stamps.fall),
    }
}

/// Takes the kept times of the check with this number over a change: one of another port than those of its events leaves them as
/// they are.
#[tactic(auto, using(crate::proofs::StampLemmas::left_unstamped))]
fn stamp(seen: &InputChange, check: &TimingCheck, stamps: &mut Items<Times>, i: usize)
    requires { i < length stamps.old }
    ensures { stamps.new ≡ slice_set stamps.old i
        (stamped seen.now.ports.list.now seen.now.from seen.now.change check.now (slice_index_or stamps.old i no_times)) }
{
    let is_first = is_of(seen, check.first.pin);
    let is_second = is_of(seen, check.second.pin);
    if is_first || is_second {
        let kept = stamps.as_slice()[i];
        stamps.set(i, stamped(is_first, is_second, seen, check, kept));
    }
}

/// The time from which a check measures at a change.
fn opened(seen: &InputChange, check: &TimingCheck, stamps: Times) -> Option<u64>
    ensures { result ≡ opened check.now seen.now.from seen.now.change stamps }
{
    if check.kind.is_period() {
        if is_rise(seen.from, seen.change.to) {
            stamps.rise
        } else {
            stamps.fall
        }
    } else {
        stamps.event
    }
}

/// Whether a check reports. `values` are those after the change.
fn check_reports<V: Conditions>(
    values: &V,
    seen: &InputChange,
    check: &TimingCheck,
    stamps: Times,
) -> bool
    ensures { result ≡ reports_where seen.now.ports.list.now (V.counts values.now) seen.now.from seen.now.change check.now
        stamps }
{
    if !happens(seen, check.second) {
        return false;
    }
    let enabled = values.is_enabled(check.condition);
    enabled && is_within(seen.change.at, check.limit, opened(seen, check, stamps))
}

/// Writes for each check whether it reports. `values` are those after the change.
pub fn compare_all<V: Conditions>(
    values: &V,
    seen: &InputChange,
    checks: &[TimingCheck],
    stamps: &[Times],
    reports: &mut Items<bool>,
)
    requires one_each { length stamps.now ≡ length checks.now }
    requires one_report { length reports.old ≡ length checks.now }
    ensures reports { reports.new ≡ each
        (reports_where seen.now.ports.list.now (V.counts values.now) seen.now.from seen.now.change) checks.now stamps.now }
    ensures len { length reports.new ≡ length reports.old }
{
    for i in 0..reports.len() {
        let reported = check_reports(values, seen, &checks[i], stamps[i]);
        reports.set(i, reported);
    }
}

/// Takes the kept times of all checks over a change.
#[inline(always)]
pub fn stamp_all(seen: &InputChange, checks: &[TimingCheck], stamps: &mut Items<Times>)
    requires { length stamps.old ≡ length checks.now }
    ensures stamped { stamps.new ≡ each (stamped seen.now.ports.list.now seen.now.from seen.now.change) checks.now stamps.old }
    ensures len { length stamps.new ≡ length stamps.old }
{
    for i in 0..stamps.len() {
        stamp(seen, &checks[i], stamps, i);
    }
}

/// No check reports.
pub fn clear(reports: &mut Items<bool>)
    ensures { reports.new ≡ replicate (length reports.old) false }
{
    for i in 0..reports.len() {
        reports.set(i, false);
    }
}
