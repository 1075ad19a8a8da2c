//! The simulator of a cell.
ghost use Rattle.std.specs.Prelude.{◌≡◌, [], length, IfOk};
ghost use Rattle.cell_machine.specs.CellData.{data_of};
ghost use Rattle.cell_machine.specs.CellTrace.{inputs_of, cell_machine_of};
ghost use Rattle.cell_machine.specs.Report.{any_true};
ghost use Rattle.cell_machine.specs.LibertyStands.{Stands, cell_machine_sized};
ghost use Rattle.cell_machine.specs.CellStarts.{IsCellStart};

use crate::cell_start::{CellStart, StartValues};
use crate::cells::Cell;
use crate::changes::Change;
use crate::entries::entry;
use crate::kept_arcs::KeptArcs;
use crate::reports::report_all;
use crate::shared::Shared;
use crate::shown::{Shown, ShownChange, show_all};
use crate::simulators::{CellSim, Sizes};
use crate::states::{SeenChange, change_states};
use crate::times::Times;
use sqlite_items::Items;
use std::alloc::{AllocError, Global};
use trit_cubes::Trit;

/// A cell run by its own machine. It keeps the values of the inputs, the states and what the outputs show, and for each
/// input the times of its last change, of its last possible rise and of its last possible fall. Of the arcs it
/// keeps the values of their conditions and the least delays of two pins until an input changes on which they hang.
#[derive(Drop)]
pub struct LibertySim<'a> {
    cell: &'a Cell,
    known: Shared<CellStart>,
    inputs: Items<Trit>,
    times: Items<Times>,
    states: Items<Trit>,
    reports: Items<bool>,
    shown: Items<Shown>,
    kept: KeptArcs,
    ghost is_start: { IsCellStart (data_of cell.now) known },
    ghost each_input: { length inputs ≡ inputs_of (data_of cell.now) },
    ghost each_time: { length times ≡ inputs_of (data_of cell.now) },
    ghost each_state: { length states ≡ length cell.now.groups },
    ghost each_check: { length reports ≡ length cell.now.checks },
    ghost each_output: { length shown ≡ length cell.now.outputs },
}

impl<'a> LibertySim<'a> {
    /// The simulator of a cell before any change: all inputs and all states are unknown.
    pub fn start(alloc: Global, cell: &'a Cell) -> Result<LibertySim<'a>, AllocError>
        ensures machine { IfOk result (λ sim. ⟦<LibertySim<'a> as CellSim>⟧.machine sim ≡ cell_machine_of (data_of cell.now)) }
        ensures stands { IfOk result (λ sim. ⟦<LibertySim<'a> as CellSim>⟧.stands sim []) }
    {
        let known = Shared::new(alloc, CellStart::of(alloc, cell)?)?;
        LibertySim::start_by(alloc, cell, &known)
    }

    /// The same, by what is known of the cell before any change.
    pub fn start_by(
        alloc: Global,
        cell: &'a Cell,
        known: &Shared<CellStart>,
    ) -> Result<LibertySim<'a>, AllocError>
        requires { IsCellStart (data_of cell.now) known.now }
        ensures machine { IfOk result (λ sim. ⟦<LibertySim<'a> as CellSim>⟧.machine sim ≡ cell_machine_of (data_of cell.now)) }
        ensures stands { IfOk result (λ sim. ⟦<LibertySim<'a> as CellSim>⟧.stands sim []) }
    {
        let shown = Items::from_slice(alloc, known.get().shown.as_slice())?;
        let known = known.again()?;
        let values = StartValues::of(alloc, cell)?;
        Ok(LibertySim {
            cell,
            known,
            inputs: values.inputs,
            times: values.times,
            states: values.states,
            reports: values.reports,
            shown,
            kept: values.kept,
        })
    }
}

impl<'a> CellSim for LibertySim<'a> {
    ghost machine = { λ s. cell_machine_of (data_of s.cell.now) };

    ghost stands = { λ s h. Stands (data_of s.cell.now) s.known.check_names s.known.arc_names s.inputs s.times s.states
        s.reports s.shown s.kept h };

    fn sizes(&self) -> Sizes {
        Sizes {
            inputs: self.inputs.len(),
            outputs: self.shown.len(),
            checks: self.reports.len(),
        }
    }

    fn step(&mut self, at: u64, pin: usize, to: Trit) {
        let change = Change { at, pin, to };
        let from = self.inputs.as_slice()[pin];
        self.inputs.set(pin, to);
        let inputs = self.inputs.as_slice();
        report_all(
            self.cell,
            self.known.get(),
            inputs,
            self.times.as_slice(),
            from,
            change,
            &mut self.reports,
        );
        let reported = any_true(self.reports.as_slice());
        let seen = SeenChange {
            tables: &self.known.get().steps,
            reported,
            inputs,
            from,
            change,
        };
        change_states(self.cell, &seen, &mut self.states);
        let times = self.times.as_slice()[pin].stamped(at, from, to);
        self.times.set(pin, times);
        let places = &self.known.get().places;
        self.kept.forget(places, pin);
        let arcs = self.known.get().arc_names.as_slice();
        let states = self.states.as_slice();
        let seen = ShownChange {
            outputs: &self.known.get().outputs,
            names: arcs,
            places: entry(&places.between, pin),
            inputs,
            states,
            change,
        };
        show_all(self.cell, &seen, &mut self.kept, &mut self.shown);
    }

    fn shown(&self, place: usize) -> Shown {
        self.shown.as_slice()[place]
    }

    fn reported(&self, check: usize) -> bool {
        self.reports.as_slice()[check]
    }

    ghost sized = { λ s. cell_machine_sized (data_of s.cell.now) };
}

/// Whether some check reported.
fn any_true(reports: &[bool]) -> bool
    ensures { result ≡ any_true reports.now }
{
    reports.iter().any(|reported| *reported)
}
