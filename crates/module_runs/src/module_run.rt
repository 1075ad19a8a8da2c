//! How a change of an input takes the run of a module on.
ghost use Rattle.std.specs.Prelude.{◌≡◌, ◌<◌, false, All, List, [], ◌∷◌, length, slice_set, IsTrue, IfOk};
ghost use Rattle.specify_blocks.specs.Sound.{IsSound};
ghost use Rattle.module_runs.specs.Wiring.{is_wired};
ghost use Rattle.module_runs.specs.Gates.{gate_zeros};
ghost use Rattle.trit_cubes.specs.declared.trits.Trit.{Trit};
ghost use Rattle.module_runs.specs.KeptValues.{kept_value, kept_values};
ghost use Rattle.module_runs.specs.ModuleStands.{IsCurrent, IsReady};
ghost use Rattle.run_parts.specs.Places.{FindsAnew};
ghost use Rattle.cell_machine.specs.History.{value_before};
ghost use Rattle.model_traces.specs.Primitives.{next_states};
ghost use Rattle.model_traces.specs.PortNumbers.{input_count};
ghost use Rattle.model_traces.specs.ModuleRun.{start_run, toggled, entered, kept as times_kept, notified, shaken, reports_by};
ghost use Rattle.model_traces.specs.ModuleRun.{reports_at, happened, step_reports, run_step, HasEach};

use crate::gates::either;
use crate::kept_values::find_anew;
use crate::module_states::ModuleStates;
use crate::module_tables::ModuleTables;
use crate::module_values::ModuleValues;
use crate::primitives::step_states;
use crate::wiring::most_nets;
use cell_machine::Change;
use model_traces::{ModuleRun, Turn, Turned};
use run_parts::{
    InputChange, clear, compare_all, input_count, no_times, stamp_all, unknown_values,
};
use specify_blocks::VModule;
use sqlite_items::Items;
use std::alloc::{AllocError, Global};
use trit_cubes::Trit;

/// The run of a module before any change.
pub(crate) fn start_run(alloc: Global, model: &VModule) -> Result<ModuleRun, AllocError>
    ensures run { IfOk result (λ run. run ≡ start_run model.now) }
    ensures each_input { IfOk result (λ run. length run.inputs ≡ input_count model.now.ports) }
    ensures one_each { IfOk result (λ run. HasEach model.now run) }
{
    let count = input_count(model.ports.as_slice());
    let inputs = unknown_values(alloc, count)?;
    let states = unknown_values(alloc, model.instances.len())?;
    let stamps = no_times(alloc, model.checks.len())?;
    Ok(ModuleRun {
        inputs,
        states,
        notifier: Trit::Unknown,
        stamps,
    })
}

/// What the register of the checks becomes at a violation.
fn toggled(notifier: Trit) -> Trit
    ensures { result ≡ toggled notifier }
{
    match notifier {
        Trit::Zero => Trit::One,
        Trit::One => Trit::Zero,
        Trit::Unknown => Trit::Zero,
    }
}

/// A run of a module, with what its instances drive.
#[derive(Drop)]
pub struct ModuleState {
    /// What each instance drives, X where it has a state.
    pub kept: Items<Trit>,
    /// Place for the values of the nets that feed one instance.
    pub room: Items<Trit>,
    /// The run.
    pub run: ModuleRun,
}

impl ModuleState {
    /// The state of a sound module before any change, where its instances drive this.
    pub(crate) fn at_start(
        alloc: Global,
        model: &VModule,
        kept: &[Trit],
    ) -> Result<ModuleState, AllocError>
        requires sound { IsSound model.now }
        requires kept { kept.now ≡ kept_values model.now (start_run model.now).inputs (start_run model.now).states }
        ensures run { IfOk result (λ state. state.run ≡ start_run model.now) }
        ensures current { IfOk result (λ state. IsCurrent model.now state) }
        ensures each_input { IfOk result (λ state. length state.run.inputs ≡ input_count model.now.ports) }
    {
        let run = start_run(alloc, model)?;
        let room = unknown_values(alloc, most_nets(model))?;
        let kept = Items::from_slice(alloc, kept)?;
        Ok(ModuleState { kept, room, run })
    }

    /// The primitives that see a change take their next states. It answers whether some state changed.
    fn turn_states(&mut self, tables: &ModuleTables, turn: Turn) -> bool
        requires wired { IsTrue (is_wired (length self.old.room) tables.now.model.now) }
        requires one_each { HasEach tables.now.model.now self.old.run }
        ensures stepped { self.new.run ≡ record {
          inputs = self.old.run.inputs;
          states =
              next_states tables.now.model.now self.old.run.inputs self.old.run.notifier turn self.old.run.states;
          notifier =
              self.old.run.notifier;
          stamps = self.old.run.stamps;
        } }
        ensures still { result ≡ false → self.new.run.states ≡ self.old.run.states }
        ensures one_each { HasEach tables.now.model.now self.new.run }
        ensures kept { self.new.kept ≡ self.old.kept }
        ensures len { length self.new.room ≡ length self.old.room }
    {
        step_states(
            tables,
            self.run.inputs.as_slice(),
            self.run.notifier,
            turn,
            &mut self.run.states,
            &mut self.room,
        )
    }

    /// What these instances drive is found anew. It answers whether a gate changed between 0 and not 0.
    fn find_places_anew(&mut self, tables: &ModuleTables, places: &[usize]) -> bool
        requires wired { IsTrue (is_wired (length self.old.room) tables.now.model.now) }
        requires inside { All (λ place. place < length tables.now.model.now.instances) places.now }
        requires one_each { length self.old.kept ≡ length tables.now.model.now.instances }
        ensures anew { FindsAnew (kept_value tables.now.model.now self.old.run.inputs self.old.run.states)
            tables.now.model.now.instances places.now self.old.kept self.new.kept }
        ensures run { self.new.run ≡ self.old.run }
        ensures still { result ≡ false → gate_zeros tables.now.index.now.gates.places self.new.kept
            ≡ gate_zeros tables.now.index.now.gates.places self.old.kept }
        ensures len { length self.new.room ≡ length self.old.room }
    {
        let values = ModuleStates {
            tables: *tables,
            inputs: self.run.inputs.as_slice(),
            states: self.run.states.as_slice(),
        };
        find_anew(&values, places, &mut self.kept, &mut self.room)
    }

    /// What states feed is found anew where some state changed. Before, what is kept was so for the same inputs. It answers
    /// whether a gate changed between 0 and not 0.
    fn find_fed_where_changed(&mut self, tables: &ModuleTables, changed: bool) -> bool
        requires wired { IsTrue (is_wired (length self.old.room) tables.now.model.now) }
        requires one_each { length self.old.kept ≡ length tables.now.model.now.instances }
        requires still { changed ≡ false
            → self.old.kept ≡ kept_values tables.now.model.now self.old.run.inputs self.old.run.states }
        ensures current { (before : List Trit) → self.old.kept ≡ kept_values tables.now.model.now self.old.run.inputs before
            → self.new.kept ≡ kept_values tables.now.model.now self.old.run.inputs self.old.run.states }
        ensures run { self.new.run ≡ self.old.run }
        ensures still { result ≡ false → gate_zeros tables.now.index.now.gates.places self.new.kept
            ≡ gate_zeros tables.now.index.now.gates.places self.old.kept }
        ensures len { length self.new.room ≡ length self.old.room }
    {
        if !changed {
            return false;
        }
        self.find_places_anew(tables, tables.fed_by_states())
    }

    /// The input takes its value, and what it feeds is found anew. It answers whether a gate changed between 0 and not 0.
    fn set_input(&mut self, tables: &ModuleTables, change: Change) -> bool
        requires wired { IsTrue (is_wired (length self.old.room) tables.now.model.now) }
        requires current { self.old.kept ≡ kept_values tables.now.model.now self.old.run.inputs self.old.run.states }
        requires inside { change.pin < length self.old.run.inputs }
        ensures changed { self.new.run ≡ record {
          inputs = slice_set self.old.run.inputs change.pin change.to;
          states = self.old.run.states;
          notifier =
              self.old.run.notifier;
          stamps = self.old.run.stamps;
        } }
        ensures current { self.new.kept ≡ kept_values tables.now.model.now (slice_set self.old.run.inputs change.pin change.to)
            self.old.run.states }
        ensures still { result ≡ false → gate_zeros tables.now.index.now.gates.places self.new.kept
            ≡ gate_zeros tables.now.index.now.gates.places self.old.kept }
        ensures len { length self.new.room ≡ length self.old.room }
    {
        self.run.inputs.set(change.pin, change.to);
        self.find_places_anew(tables, tables.fed_by(Turned::Input(change.pin)))
    }

    /// The input takes its value, what it feeds is found anew, and the primitives with a state that it feeds take their next
    /// states. It answers whether a gate changed between 0 and not 0.
    fn change_input(&mut self, tables: &ModuleTables, change: Change, from: Trit) -> bool
        requires current { IsCurrent tables.now.model.now self.old }
        requires inside { change.pin < length self.old.run.inputs }
        requires from { from ≡ value_before self.old.run.inputs change }
        ensures stepped { self.new.run ≡ entered tables.now.model.now self.old.run change }
        ensures current { IsCurrent tables.now.model.now self.new }
        ensures still { result ≡ false → gate_zeros tables.now.index.now.gates.places self.new.kept
            ≡ gate_zeros tables.now.index.now.gates.places self.old.kept }
    {
        let by_input = self.set_input(tables, change);
        let turn = Turn {
            what: Turned::Input(change.pin),
            from,
        };
        let changed = self.turn_states(tables, turn);
        let by_states = self.find_fed_where_changed(tables, changed);
        either(by_input, by_states)
    }

    /// The register of the checks changes once. It answers whether some state changed.
    fn toggle_notifier(&mut self, tables: &ModuleTables) -> bool
        requires wired { IsTrue (is_wired (length self.old.room) tables.now.model.now) }
        requires one_each { HasEach tables.now.model.now self.old.run }
        ensures stepped { self.new.run ≡ notified tables.now.model.now self.old.run }
        ensures one_each { HasEach tables.now.model.now self.new.run }
        ensures inputs { self.new.run.inputs ≡ self.old.run.inputs }
        ensures still { result ≡ false → self.new.run.states ≡ self.old.run.states }
        ensures kept { self.new.kept ≡ self.old.kept }
        ensures len { length self.new.room ≡ length self.old.room }
    {
        let turn = Turn {
            what: Turned::Notifier,
            from: self.run.notifier,
        };
        self.run.notifier = toggled(self.run.notifier);
        self.turn_states(tables, turn)
    }

    /// The register changes where a check reported, and what states feed is found anew. It answers whether a gate changed
    /// between 0 and not 0.
    fn toggle_where_reported(&mut self, tables: &ModuleTables, reported: bool) -> bool
        requires { IsCurrent tables.now.model.now self.old }
        ensures stepped { self.new.run ≡ shaken tables.now.model.now (reported ∷ []) self.old.run }
        ensures current { IsCurrent tables.now.model.now self.new }
        ensures inputs { self.new.run.inputs ≡ self.old.run.inputs }
        ensures still { result ≡ false → gate_zeros tables.now.index.now.gates.places self.new.kept
            ≡ gate_zeros tables.now.index.now.gates.places self.old.kept }
    {
        if !reported {
            return false;
        }
        let changed = self.toggle_notifier(tables);
        self.find_fed_where_changed(tables, changed)
    }

    /// The register changes once for each report. It answers whether a gate changed between 0 and not 0.
    fn toggle_for_each(&mut self, tables: &ModuleTables, reports: &[bool]) -> bool
        requires { IsCurrent tables.now.model.now self.old }
        ensures stepped { self.new.run ≡ shaken tables.now.model.now reports.now self.old.run }
        ensures current { IsCurrent tables.now.model.now self.new }
        ensures inputs { self.new.run.inputs ≡ self.old.run.inputs }
        ensures still { result ≡ false → gate_zeros tables.now.index.now.gates.places self.new.kept
            ≡ gate_zeros tables.now.index.now.gates.places self.old.kept }
    {
        let mut changed = false;
        for i in 0..reports.len() {
            let turned = self.toggle_where_reported(tables, reports[i]);
            changed = either(changed, turned);
        }
        changed
    }

    /// Takes the run over an event, and writes which checks report. It answers whether a gate changed between 0 and not 0.
    fn step_event(
        &mut self,
        tables: &ModuleTables,
        change: Change,
        from: Trit,
        reports: &mut Items<bool>,
    ) -> bool
        requires ready { IsReady tables.now.model.now self.old reports.old }
        requires inside { change.pin < length self.old.run.inputs }
        requires from { from ≡ value_before self.old.run.inputs change }
        ensures stepped { self.new.run ≡ happened tables.now.model.now self.old.run change }
        ensures reports { reports.new ≡ reports_at tables.now.model.now self.old.run change }
        ensures still { result ≡ false → gate_zeros tables.now.index.now.gates.places self.new.kept
            ≡ gate_zeros tables.now.index.now.gates.places self.old.kept }
        ensures ready { IsReady tables.now.model.now self.new reports.new }
    {
        let by_input = self.change_input(tables, change, from);
        let kept = self.kept.as_slice();
        compare_checks(&mut self.run, kept, tables, change, from, reports);
        let by_reports = self.toggle_for_each(tables, reports.as_slice());
        either(by_input, by_reports)
    }

    /// Takes the run over a change of an input, and writes which checks report. It answers whether a gate changed between 0 and
    /// not 0.
    pub(crate) fn step(
        &mut self,
        tables: &ModuleTables,
        change: Change,
        reports: &mut Items<bool>,
    ) -> bool
        requires ready { IsReady tables.now.model.now self.old reports.old }
        requires inside { change.pin < length self.old.run.inputs }
        ensures stepped { self.new.run ≡ run_step tables.now.model.now self.old.run change }
        ensures reports { reports.new ≡ step_reports tables.now.model.now self.old.run change }
        ensures still { result ≡ false → gate_zeros tables.now.index.now.gates.places self.new.kept
            ≡ gate_zeros tables.now.index.now.gates.places self.old.kept }
        ensures ready { IsReady tables.now.model.now self.new reports.new }
    {
        let from = self.run.inputs.as_slice()[change.pin];
        if from == change.to {
            clear(reports);
            false
        } else {
            self.step_event(tables, change, from, reports)
        }
    }
}

/// Writes which checks report at a change, and takes the times that they keep over it.
fn compare_checks(
    run: &mut ModuleRun,
    kept: &[Trit],
    tables: &ModuleTables,
    change: Change,
    from: Trit,
    reports: &mut Items<bool>,
)
    requires current { kept.now ≡ kept_values tables.now.model.now run.old.inputs run.old.states }
    requires one_each { HasEach tables.now.model.now run.old }
    requires one_report { length reports.old ≡ length tables.now.model.now.checks }
    ensures stamped { run.new ≡ times_kept tables.now.model.now run.old from change }
    ensures reports { reports.new ≡ reports_by tables.now.model.now run.old from change }
    ensures one_each { HasEach tables.now.model.now run.new }
    ensures len { length reports.new ≡ length reports.old }
{
    let values = ModuleValues {
        tables: *tables,
        inputs: run.inputs.as_slice(),
        states: run.states.as_slice(),
        kept,
    };
    let seen = InputChange {
        ports: tables.ports(),
        from,
        change,
    };
    let checks = tables.model.checks.as_slice();
    compare_all(&values, &seen, checks, run.stamps.as_slice(), reports);
    stamp_all(&seen, checks, &mut run.stamps);
}
