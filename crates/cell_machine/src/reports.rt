//! Whether timing checks report at a change of an input.
ghost use Rattle.std.specs.Prelude.{◌≡◌, ◌<◌, length, map};
ghost use Rattle.cell_machine.specs.Values.{IsBounded};
ghost use Rattle.cell_machine.specs.Inputs.{input_number as input_number_of};
ghost use Rattle.cell_machine.specs.CheckInputs.{check_inputs};
ghost use Rattle.cell_machine.specs.Report.{is_period, opening};
ghost use Rattle.cell_machine.specs.Times.{time_of, report_by};
ghost use Rattle.cell_machine.specs.CellData.{data_of};
ghost use Rattle.cell_machine.specs.CellTrace.{condition_names, check_names, input_check};

use crate::cell_start::CellStart;
use crate::cells::Cell;
use crate::changes::Change;
use crate::checks::{Check, CheckKind, Edge};
use crate::edges::{edge_of, moves};
use crate::evaluation::holds;
use crate::pin_values::input_number;
use crate::pins::Pin;
use crate::times::{Times, is_within};
use sqlite_items::Items;
use trit_cubes::Trit;

impl CheckKind {
    /// Whether the check measures from an event of the same kind.
    pub fn is_period(self) -> bool
        ensures { result ≡ is_period self }
    {
        match self {
            CheckKind::Setup => false,
            CheckKind::Hold => false,
            CheckKind::Recovery => false,
            CheckKind::Removal => false,
            CheckKind::Width => false,
            CheckKind::Period => true,
        }
    }
}

/// The time of the last event of an input.
fn time_of(times: &[Times], input: usize, edge: Edge) -> Option<u64>
    ensures { result ≡ time_of (record { pin = input; edge = edge }) times.now }
{
    match times.get(input) {
        Some(times) => times.of(edge),
        None => Times::none().of(edge),
    }
}

/// The time from which a check measures at a change.
fn opened(check: &Check, pins: &[Pin], times: &[Times], from: Trit, change: Change) -> Option<u64>
    ensures { result ≡ time_of (opening (input_check pins.now check.now) from change) times.now }
{
    if check.kind.is_period() {
        time_of(
            times,
            input_number(pins, check.second.pin),
            edge_of(from, change.to),
        )
    } else {
        time_of(times, input_number(pins, check.first.pin), check.first.edge)
    }
}

/// Whether a check reports whose second event is of the input with the number `second`. `inputs` are those after the change,
/// `times` those before it. Where another input changes, nothing else of the check is looked at.
fn reports(
    check: &Check,
    second: usize,
    names: &[usize],
    pins: &[Pin],
    inputs: &[Trit],
    times: &[Times],
    from: Trit,
    change: Change,
) -> bool
    requires second { second ≡ input_number_of pins.now check.now.second.pin }
    requires bounded { IsBounded check.now.condition }
    requires names { names.now ≡ condition_names check.now.condition }
    ensures { result ≡ report_by (input_check pins.now check.now) from inputs.now times.now change }
{
    change.pin == second
        && moves(check.second.edge, from, change.to)
        && holds(&check.condition, names, pins, inputs)
        && is_within(
            change.at,
            check.limit,
            opened(check, pins, times, from, change),
        )
}

/// Writes for each check whether it reports, by what is `known` of the cell. `inputs` are the inputs after the change, `times`
/// those before it, and `from` is the value that the changed input had.
pub fn report_all(
    cell: &Cell,
    known: &CellStart,
    inputs: &[Trit],
    times: &[Times],
    from: Trit,
    change: Change,
    reports_of: &mut Items<bool>,
)
    requires seconds { known.now.check_inputs ≡ check_inputs (data_of cell.now) }
    requires names { known.now.check_names ≡ check_names (data_of cell.now) }
    requires one_each { length reports_of.old ≡ length cell.now.checks }
    ensures { reports_of.new ≡ map (λ k. report_by (input_check cell.now.pins k) from inputs.now times.now change)
        cell.now.checks }
{
    let pins = cell.pins.as_slice();
    let seconds = known.check_inputs.as_slice();
    let names = known.check_names.as_slice();
    for i in 0..reports_of.len() {
        let reported = reports(
            cell.check(i),
            seconds[i],
            names[i].as_slice(),
            pins,
            inputs,
            times,
            from,
            change,
        );
        reports_of.set(i, reported);
    }
}
