//! How a change of an input takes the run of a process on.
ghost use Rattle.std.specs.Prelude.{◌≡◌, ◌<◌, false, length, slice_set, IfOk};
ghost use Rattle.cell_machine.specs.Report.{any_true};
ghost use Rattle.model_traces.specs.PortNumbers.{input_count};
ghost use Rattle.run_parts.specs.KeptDelays.{zeros};
ghost use Rattle.process_runs.specs.EntityRooms.{IsSound, HasRoom};
ghost use Rattle.process_runs.specs.KeptConditions.{condition_values};
ghost use Rattle.process_runs.specs.EntitySteps.{HasParts, start_state, violation_by, event_reports, event_step, state_step};
ghost use Rattle.cell_machine.specs.History.{value_before};
ghost use Rattle.process_runs.specs.EntitySteps.{change_reports, IsReady, CanTake};

use crate::entity_tables::EntityTables;
use crate::entity_values::EntityValues;
use crate::kept_conditions::find_anew;
use crate::process_states::step_entity;
use cell_machine::{Change, Times};
use run_parts::{
    InputChange, clear, compare_all, input_count, no_times, stamp_all, unknown_values,
};
use sqlite_items::Items;
use std::alloc::{AllocError, Global};
use trit_cubes::Trit;
use vital_models::VEntity;

/// What a run of a process holds.
#[derive(Drop)]
pub struct ProcessState {
    /// The violation at the last event.
    pub(crate) violation: Trit,
    /// The value of each input.
    pub(crate) inputs: Items<Trit>,
    /// The value that each input had at the last event, with which the tables were looked up.
    pub(crate) before: Items<Trit>,
    /// Each state.
    pub(crate) states: Items<Trit>,
    /// For each check the times that it keeps.
    pub(crate) stamps: Items<Times>,
}

/// The run of a process before any change.
pub(crate) fn start_state(alloc: Global, model: &VEntity) -> Result<ProcessState, AllocError>
    ensures run { IfOk result (λ run. run ≡ start_state model.now) }
    ensures each_input { IfOk result (λ run. length run.inputs ≡ input_count model.now.ports) }
    ensures one_each { IfOk result (λ run. HasParts model.now run) }
{
    let states = unknown_values(alloc, model.states.len())?;
    let count = input_count(model.ports.as_slice());
    let inputs = unknown_values(alloc, count)?;
    let before = unknown_values(alloc, count)?;
    let stamps = no_times(alloc, model.checks.len())?;
    Ok(ProcessState {
        inputs,
        before,
        states,
        violation: Trit::Unknown,
        stamps,
    })
}

/// A run of an entity, with the values of its conditions.
#[derive(Drop)]
pub struct EntityState {
    /// The value of each condition.
    pub(crate) conditions: Items<Trit>,
    /// The run.
    pub(crate) run: ProcessState,
    /// Place for the columns of any table at the last event.
    pub(crate) earlier: Items<Trit>,
    /// Place for the columns of any table.
    pub(crate) room: Items<Trit>,
}

/// Whether some check reported.
fn any_true(reports: &[bool]) -> bool
    ensures { result ≡ any_true reports.now }
{
    reports.iter().any(|reported| *reported)
}

/// The violation: X where some check reported, else 0.
fn violation_of(reports: &[bool]) -> Trit
    ensures { result ≡ violation_by (any_true reports.now) }
{
    if any_true(reports) {
        Trit::Unknown
    } else {
        Trit::Zero
    }
}

/// The input takes its value, and the conditions that it feeds are found anew. It answers whether one of these changed between 0
/// and not 0.
fn change_input(
    run: &mut ProcessState,
    conditions: &mut Items<Trit>,
    tables: &EntityTables,
    change: Change,
    room: &mut Items<Trit>,
) -> bool
    requires sound { IsSound tables.now.model.now }
    requires room { HasRoom (length room.old) tables.now.model.now }
    requires current { conditions.old ≡ condition_values tables.now.model.now run.old.inputs }
    requires each_input { length run.old.inputs ≡ input_count tables.now.model.now.ports }
    requires inside { change.pin < length run.old.inputs }
    ensures changed { run.new ≡ record {
      inputs = slice_set run.old.inputs change.pin change.to;
      before = run.old.before;
      states =
          run.old.states;
      violation = run.old.violation;
      stamps = run.old.stamps;
    } }
    ensures current { conditions.new ≡ condition_values tables.now.model.now (slice_set run.old.inputs change.pin change.to) }
    ensures still { result ≡ false → zeros conditions.new ≡ zeros conditions.old }
    ensures room { length room.new ≡ length room.old }
{
    run.inputs.set(change.pin, change.to);
    let places = tables.fed_by(change.pin);
    find_anew(tables, run.inputs.as_slice(), places, conditions, room)
}

/// Takes the run over an event, and writes which checks report. It answers whether a condition changed between 0 and not 0.
fn step_event(
    run: &mut ProcessState,
    conditions: &mut Items<Trit>,
    tables: &EntityTables,
    change: Change,
    from: Trit,
    reports: &mut Items<bool>,
    earlier: &mut Items<Trit>,
    room: &mut Items<Trit>,
) -> bool
    requires able { CanTake tables.now.model.now run.old conditions.old reports.old (length earlier.old)
        (length room.old) change.pin }
    requires from { from ≡ value_before run.old.inputs change }
    ensures stepped { run.new ≡ event_step tables.now.model.now run.old change
        (violation_by (any_true (event_reports tables.now.model.now run.old change))) }
    ensures reports { reports.new ≡ event_reports tables.now.model.now run.old change }
    ensures still { result ≡ false → zeros conditions.new ≡ zeros conditions.old }
    ensures ready { IsReady tables.now.model.now run.new conditions.new reports.new (length earlier.new) (length room.new) }
{
    let changed = change_input(run, conditions, tables, change, room);
    let values = EntityValues {
        tables: *tables,
        inputs: run.inputs.as_slice(),
        states: run.states.as_slice(),
        conditions: conditions.as_slice(),
    };
    let ports = tables.ports();
    let seen = InputChange {
        ports,
        from,
        change,
    };
    let checks = tables.model.checks.as_slice();
    compare_all(&values, &seen, checks, run.stamps.as_slice(), reports);
    let violation = violation_of(reports.as_slice());
    step_entity(
        tables,
        run.violation,
        run.before.as_slice(),
        violation,
        run.inputs.as_slice(),
        &mut run.states,
        earlier,
        room,
    );
    run.before.set(change.pin, change.to);
    run.violation = violation;
    stamp_all(&seen, checks, &mut run.stamps);
    changed
}

/// Takes the run over a change of an input, and writes which checks report. `conditions` has the value of each condition. It
/// answers whether one of these changed between 0 and not 0.
pub(crate) fn step_run(
    run: &mut ProcessState,
    conditions: &mut Items<Trit>,
    tables: &EntityTables,
    change: Change,
    reports: &mut Items<bool>,
    earlier: &mut Items<Trit>,
    room: &mut Items<Trit>,
) -> bool
    requires { CanTake tables.now.model.now run.old conditions.old reports.old (length earlier.old) (length room.old) change.pin }
    ensures stepped { run.new ≡ state_step tables.now.model.now run.old change }
    ensures reports { reports.new ≡ change_reports tables.now.model.now run.old change }
    ensures still { result ≡ false → zeros conditions.new ≡ zeros conditions.old }
    ensures ready { IsReady tables.now.model.now run.new conditions.new reports.new (length earlier.new) (length room.new) }
{
    let from = run.inputs.as_slice()[change.pin];
    if from == change.to {
        clear(reports);
        false
    } else {
        step_event(
            run, conditions, tables, change, from, reports, earlier, room,
        )
    }
}
