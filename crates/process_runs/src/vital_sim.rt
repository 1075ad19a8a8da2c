//! The simulator of a VITAL entity.
ghost use Rattle.std.specs.Prelude.{◌≡◌, [], length, IfOk};
ghost use Rattle.std.proofs.Props.{props};
ghost use Rattle.run_parts.specs.KeptDelays.{AreKept};
ghost use Rattle.process_runs.specs.{EntityProps.value_prop, EntityIndexed.IsEntityIndex, EntityStarts.IsEntityStart};
ghost use Rattle.process_runs.specs.{EntityStates.IsStateReady, EntityRooms.IsSound, NumberedPaths.numbered_paths};
ghost use Rattle.process_runs.specs.EntitySteps.{EntityStands, entity_machine, entity_sized};

use crate::entity_start::EntityStart;
use crate::entity_tables::EntityTables;
use crate::entity_values::EntityValues;
use crate::process_run::{EntityState, step_run};
use crate::process_shown::show_entity;
use cell_machine::{CellSim, Change, Shared, Sizes};
use run_parts::{KeptDelays, ShownPort, no_reports};
use sqlite_items::Items;
use std::alloc::{AllocError, Global};
use trit_cubes::Trit;
use vital_models::VEntity;

/// A VITAL entity run by its tables, paths and checks. (IEEE 1076.4-2000.)
#[derive(Drop)]
pub struct VitalSim<'a> {
    model: &'a VEntity,
    known: Shared<EntityStart>,
    state: EntityState,
    delays: KeptDelays,
    reports: Items<bool>,
    shown: Items<ShownPort>,
    ghost indexed: { IsEntityIndex model.now known.index },
    ghost ready: { IsStateReady model.now state reports } by { Prim.hlevel (props, value_prop) },
    ghost kept: { AreKept (numbered_paths model.now state.run.inputs) delays },
    ghost each_output: { length shown ≡ length model.now.outputs },
}

impl<'a> VitalSim<'a> {
    /// The simulator of a sound entity before any change, by what is known of it there: all inputs and states, the columns of its
    /// tables and the violation are unknown. `AllocError` comes only where memory is wanted and not there.
    pub fn start_by(
        alloc: Global,
        model: &'a VEntity,
        known: &Shared<EntityStart>,
    ) -> Result<VitalSim<'a>, AllocError>
        requires sound { IsSound model.now }
        requires known { IsEntityStart model.now known.now }
        ensures machine { IfOk result (λ sim. ⟦<VitalSim<'a> as CellSim>⟧.machine sim ≡ entity_machine model.now) }
        ensures stands { IfOk result (λ sim. ⟦<VitalSim<'a> as CellSim>⟧.stands sim []) }
    {
        let start = known.get();
        let known = known.again()?;
        let reports = no_reports(alloc, model.checks.len())?;
        let shown = Items::from_slice(alloc, start.shown.as_slice())?;
        let delays = KeptDelays::none(alloc, start.index.places.as_slice())?;
        let state = start.state(alloc, model)?;
        Ok(VitalSim {
            model,
            known,
            state,
            delays,
            reports,
            shown,
        })
    }

    /// The same, which first finds what is known of the entity.
    pub fn start(alloc: Global, model: &'a VEntity) -> Result<VitalSim<'a>, AllocError>
        requires { IsSound model.now }
        ensures machine { IfOk result (λ sim. ⟦<VitalSim<'a> as CellSim>⟧.machine sim ≡ entity_machine model.now) }
        ensures stands { IfOk result (λ sim. ⟦<VitalSim<'a> as CellSim>⟧.stands sim []) }
    {
        let known = Shared::new(alloc, EntityStart::of(alloc, model)?)?;
        VitalSim::start_by(alloc, model, &known)
    }
}

impl<'a> CellSim for VitalSim<'a> {
    ghost machine = { λ s. entity_machine s.model.now };

    ghost stands = { λ s h. EntityStands s.model.now s.state.run s.reports s.shown h };

    fn sizes(&self) -> Sizes {
        Sizes {
            inputs: self.state.run.inputs.len(),
            outputs: self.shown.len(),
            checks: self.reports.len(),
        }
    }

    fn step(&mut self, at: u64, pin: usize, to: Trit) {
        let tables = EntityTables {
            model: self.model,
            index: &self.known.get().index,
        };
        let changed = step_run(
            &mut self.state.run,
            &mut self.state.conditions,
            &tables,
            Change { at, pin, to },
            &mut self.reports,
            &mut self.state.earlier,
            &mut self.state.room,
        );
        self.delays.forget_where(changed);
        let values = EntityValues {
            tables,
            inputs: self.state.run.inputs.as_slice(),
            states: self.state.run.states.as_slice(),
            conditions: self.state.conditions.as_slice(),
        };
        show_entity(
            &values,
            pin,
            &mut self.shown,
            &mut self.delays,
            &mut self.state.room,
        );
    }

    fn shown(&self, place: usize) -> cell_machine::Shown {
        self.shown.as_slice()[place].alone()
    }

    fn reported(&self, check: usize) -> bool {
        self.reports.as_slice()[check]
    }

    ghost sized = { λ s. entity_sized s.model.now };
}
