//! Where the traces of two simulators differ.
ghost use Rattle.std.specs.Prelude.{◌≡◌, ◌&&◌, [], List, slice_index_or, false};
ghost use Rattle.cell_machine.specs.declared.changes.Change.{Change as ChangeOf};
ghost use Rattle.cell_machine.specs.History.{IsProperFrom};
ghost use Rattle.stimulus.specs.DriveLines.{same_drive as same_drive_of, lines_along};
ghost use Rattle.stimulus.specs.Differences.{same_delay as same_delay_of, same_fact as same_fact_of};
ghost use Rattle.stimulus.specs.Differences.{same_values as same_values_of, same_delays as same_delays_of};
ghost use Rattle.stimulus.specs.Differences.{same_reports as same_reports_of, same_line as same_line_of};
ghost use Rattle.stimulus.specs.Differences.{first_difference as first_difference_of, NoDifferenceIsEqual};

use crate::{Drive, TraceSim};
use cell_machine::Change;

/// Gives the changes to two simulators that stand at their starts, and answers the number of the first change, from 1, after
/// which they show something else: 0 where they do so at their starts, and nothing where they never do. What they show is
/// each output's value and delay, and the checks that report.
///
/// They need as many inputs and as many outputs as each other, and changes of these inputs at times that rise strictly. It
/// takes no memory.
pub fn first_difference<A: TraceSim, B: TraceSim>(
    left: &mut A,
    right: &mut B,
    changes: &[Change],
) -> Option<usize>
    requires inputs { (A.machine left.old).inputs ≡ (B.machine right.old).inputs }
    requires outputs { (A.machine left.old).outputs ≡ (B.machine right.old).outputs }
    requires left { A.stands left.old [] }
    requires right { B.stands right.old [] }
    requires proper { IsProperFrom (A.machine left.old).inputs [] changes.now }
    ensures { result ≡ first_difference_of (lines_along (A.machine left.old).line changes.now)
        (lines_along (B.machine right.old).line changes.now) }
{
    if !same_line(left, right) {
        return Some(0);
    }
    let mut number = 1;
    for change in changes {
        left.step(change.at, change.pin, change.to);
        right.step(change.at, change.pin, change.to);
        if !same_line(left, right) {
            return Some(number);
        }
        number += 1;
    }
    None
}

/// Whether two simulators with as many outputs show the same.
pub fn same_line<A: TraceSim, B: TraceSim>(left: &A, right: &B) -> bool
    requires { (A.machine left.now).outputs ≡ (B.machine right.now).outputs }
    ensures { (g h : List ChangeOf) → A.stands left.now g → B.stands right.now h
        → result ≡ same_line_of ((A.machine left.now).line g) ((B.machine right.now).line h) }
{
    same_outputs(left, right) && same_reports(left, right)
}

/// Whether the outputs have the same values and the same delays.
fn same_outputs<A: TraceSim, B: TraceSim>(left: &A, right: &B) -> bool
    requires { (A.machine left.now).outputs ≡ (B.machine right.now).outputs }
    ensures { (g h : List ChangeOf) → A.stands left.now g → B.stands right.now h
        → result ≡ (same_values_of ((A.machine left.now).line g).values ((B.machine right.now).line h).values
        && same_delays_of ((A.machine left.now).line g).delays ((B.machine right.now).line h).delays) }
{
    for place in 0..left.outputs() {
        if !same_drive(left.value(place), right.value(place)) {
            return false;
        }
        if !same_delay(left.delay(place), right.delay(place)) {
            return false;
        }
    }
    true
}

/// Whether two drives are the same.
fn same_drive(one: Drive, other: Drive) -> bool
    ensures { result ≡ same_drive_of one other }
{
    one == other
}

/// Whether two delays are the same.
fn same_delay(one: Option<u64>, other: Option<u64>) -> bool
    ensures { result ≡ same_delay_of one other }
{
    match (one, other) {
        (None, None) => true,
        (Some(one), Some(other)) => one == other,
        _ => false,
    }
}

/// Whether the same checks report.
fn same_reports<A: TraceSim, B: TraceSim>(left: &A, right: &B) -> bool
    ensures { (g h : List ChangeOf) → A.stands left.now g → B.stands right.now h
        → result ≡ same_reports_of ((A.machine left.now).line g).reports ((B.machine right.now).line h).reports }
{
    let of_left = left.checks();
    let of_right = right.checks();
    for check in 0..of_left.max(of_right) {
        if !same_fact(
            reports(left, of_left, check),
            reports(right, of_right, check),
        ) {
            return false;
        }
    }
    true
}

/// Whether two facts are the same.
fn same_fact(one: bool, other: bool) -> bool
    ensures { result ≡ same_fact_of one other }
{
    one == other
}

/// Whether there is a check with this number among so many, and it reports.
fn reports<S: TraceSim>(sim: &S, count: usize, check: usize) -> bool
    requires { count ≡ (S.machine sim.now).checks }
    ensures { (h : List ChangeOf) → S.stands sim.now h
        → result ≡ slice_index_or ((S.machine sim.now).line h).reports check false }
{
    check < count && sim.reported(check)
}

/// A law: where two simulators run as many checks, no difference is found exactly where their traces are equal.
#[tactic(auto, using(crate::proofs::Compared::no_difference))]
pub fn no_difference_is_equal()
    ensures { NoDifferenceIsEqual }
{}
