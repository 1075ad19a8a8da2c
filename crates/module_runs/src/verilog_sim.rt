//! The simulator of a Verilog module.
ghost use Rattle.std.specs.Prelude.{◌≡◌, [], length, IfOk};
ghost use Rattle.run_parts.specs.KeptDelays.{AreKept};
ghost use Rattle.module_runs.specs.OutputPaths.{output_paths};
ghost use Rattle.module_runs.specs.ModuleStands.{IsReady, Stands, module_machine, module_sized};
ghost use Rattle.specify_blocks.specs.Sound.{IsSound};
ghost use Rattle.model_traces.specs.PortNumbers.{output_ports};
ghost use Rattle.module_runs.specs.ModuleIndexed.{IsModuleIndex};
ghost use Rattle.module_runs.specs.ModuleStarts.{IsModuleStart};

use crate::gates::either;
use crate::module_run::ModuleState;
use crate::module_shown::show_all;
use crate::module_start::ModuleStart;
use crate::module_tables::ModuleTables;
use crate::module_values::ModuleValues;
use cell_machine::{CellSim, Change, Shared, Sizes};
use run_parts::{KeptDelays, ShownPort, no_reports};
use specify_blocks::VModule;
use sqlite_items::Items;
use std::alloc::{AllocError, Global};
use trit_cubes::Trit;

/// A Verilog module run by its tables, paths and checks. (IEEE 1364-2005, clauses 8, 14 and 15.)
#[derive(Drop)]
pub struct VerilogSim<'a> {
    model: &'a VModule,
    known: Shared<ModuleStart>,
    state: ModuleState,
    delays: KeptDelays,
    reports: Items<bool>,
    shown: Items<ShownPort>,
    ghost indexed: { IsModuleIndex model.now known.index },
    ghost ready: { IsReady model.now state reports },
    ghost delays_kept: { AreKept (output_paths model.now state.run.inputs state.run.states) delays },
    ghost each_output: { length shown ≡ length (output_ports model.now.ports) },
}

impl<'a> VerilogSim<'a> {
    /// The simulator of a sound module before any change, by what is known of it there: all inputs, states and the register of
    /// the checks are unknown.
    pub fn start_by(
        alloc: Global,
        model: &'a VModule,
        known: &Shared<ModuleStart>,
    ) -> Result<VerilogSim<'a>, AllocError>
        requires sound { IsSound model.now }
        requires known { IsModuleStart model.now known.now }
        ensures machine { IfOk result (λ sim. ⟦<VerilogSim<'a> as CellSim>⟧.machine sim ≡ module_machine model.now) }
        ensures stands { IfOk result (λ sim. ⟦<VerilogSim<'a> as CellSim>⟧.stands sim []) }
    {
        let start = known.get();
        let known = known.again()?;
        let reports = no_reports(alloc, model.checks.len())?;
        let shown = Items::from_slice(alloc, start.shown.as_slice())?;
        let delays = KeptDelays::none(alloc, start.index.paths.places.as_slice())?;
        let state = ModuleState::at_start(alloc, model, start.kept.as_slice())?;
        Ok(VerilogSim {
            model,
            known,
            state,
            delays,
            reports,
            shown,
        })
    }

    /// The same, which first finds what is known of the module.
    pub fn start(alloc: Global, model: &'a VModule) -> Result<VerilogSim<'a>, AllocError>
        requires { IsSound model.now }
        ensures machine { IfOk result (λ sim. ⟦<VerilogSim<'a> as CellSim>⟧.machine sim ≡ module_machine model.now) }
        ensures stands { IfOk result (λ sim. ⟦<VerilogSim<'a> as CellSim>⟧.stands sim []) }
    {
        let known = Shared::new(alloc, ModuleStart::of(alloc, model)?)?;
        VerilogSim::start_by(alloc, model, &known)
    }
}

impl<'a> CellSim for VerilogSim<'a> {
    ghost machine = { λ s. module_machine s.model.now };

    ghost stands = { λ s h. Stands s.model.now s.state.run s.reports s.shown h };

    fn sizes(&self) -> Sizes {
        Sizes {
            inputs: self.state.run.inputs.len(),
            outputs: self.shown.len(),
            checks: self.reports.len(),
        }
    }

    fn step(&mut self, at: u64, pin: usize, to: Trit) {
        let tables = ModuleTables {
            model: self.model,
            index: &self.known.get().index,
        };
        let changed = self
            .state
            .step(&tables, Change { at, pin, to }, &mut self.reports);
        let stateful = tables.index.gates.stateful;
        self.delays.forget_where(either(changed, stateful));
        let values = ModuleValues {
            tables,
            inputs: self.state.run.inputs.as_slice(),
            states: self.state.run.states.as_slice(),
            kept: self.state.kept.as_slice(),
        };
        show_all(&values, pin, &mut self.shown, &mut self.delays);
    }

    fn shown(&self, place: usize) -> cell_machine::Shown {
        self.shown.as_slice()[place].alone()
    }

    fn reported(&self, check: usize) -> bool {
        self.reports.as_slice()[check]
    }

    ghost sized = { λ s. module_sized s.model.now };
}
