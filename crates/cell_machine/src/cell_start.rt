//! A cell before any change.
ghost use Rattle.std.specs.Prelude.{◌≡◌, [], false, length, map, replicate, IfOk, None};
ghost use Rattle.cell_machine.specs.Inputs.{input_number};
ghost use Rattle.cell_machine.specs.Times.{no_times};
ghost use Rattle.cell_machine.specs.CellData.{data_of};
ghost use Rattle.trit_cubes.specs.declared.trits.Trit.TheVariants.{Unknown};
ghost use Rattle.cell_machine.specs.OutputTables.{AreOutputTables};
ghost use Rattle.cell_machine.specs.LibertyStands.{shown_after};
ghost use Rattle.cell_machine.specs.CellStarts.{IsCellStart};
ghost use Rattle.cell_machine.specs.CheckInputs.{check_inputs};

use crate::arc_places::ArcPlaces;
use crate::cells::Cell;
use crate::condition_names::{arc_names, check_names};
use crate::entries::repeated;
use crate::group_tables::{InputStep, step_tables};
use crate::kept_arcs::KeptArcs;
use crate::output_tables::output_tables;
use crate::pin_values::input_number;
use crate::shown::{Shown, show_start};
use crate::times::Times;
use sqlite_items::Items;
use std::alloc::{AllocError, Global};
use trit_cubes::Trit;

/// What is known of a cell before any change, which all its simulators begin with.
#[derive(Drop)]
pub struct CellStart {
    /// For each check the number of the input at whose changes it may report.
    pub check_inputs: Items<usize>,
    /// For each check the pins that its condition names.
    pub check_names: Items<Items<usize>>,
    /// For each arc the pins that its condition names.
    pub arc_names: Items<Items<usize>>,
    /// The numbers of the arcs by inputs and outputs.
    pub places: ArcPlaces,
    /// For each output the values of its function at all points of its support.
    pub outputs: Items<Items<Trit>>,
    /// For each group and each input the group's step at the input's changes, where these do not leave the state as it is.
    pub steps: Items<Items<Option<InputStep>>>,
    /// What the outputs show.
    pub shown: Items<Shown>,
}

impl CellStart {
    /// What is known of a cell before any change: all inputs and all states are unknown. `AllocError` comes only where memory is
    /// wanted and not there.
    pub fn of(alloc: Global, cell: &Cell) -> Result<CellStart, AllocError>
        ensures { IfOk result (λ start. IsCellStart (data_of cell.now) start) }
    {
        let check_inputs = check_inputs(alloc, cell)?;
        let check_names = check_names(alloc, cell)?;
        let arc_names = arc_names(alloc, cell)?;
        let outputs = output_tables(alloc, cell)?;
        let steps = step_tables(alloc, cell)?;
        let shown = first_shown(alloc, cell, &outputs)?;
        let places = ArcPlaces::of(alloc, cell, arc_names.as_slice())?;
        Ok(CellStart {
            check_inputs,
            check_names,
            arc_names,
            places,
            outputs,
            steps,
            shown,
        })
    }
}

/// The number of the input of each check's second event.
fn check_inputs(alloc: Global, cell: &Cell) -> Result<Items<usize>, AllocError>
    ensures { IfOk result (λ inputs. inputs ≡ check_inputs (data_of cell.now)) }
{
    let mut inputs = Items::new(alloc);
    for i in 0..cell.checks.len() {
        inputs.push(input_number(cell.pins.as_slice(), cell.check(i).second.pin))?;
    }
    Ok(inputs)
}

/// What a cell's outputs show before any change. `outputs` are the values of their functions at all points.
fn first_shown(
    alloc: Global,
    cell: &Cell,
    outputs: &Items<Items<Trit>>,
) -> Result<Items<Shown>, AllocError>
    requires { AreOutputTables (data_of cell.now) outputs.now }
    ensures { IfOk result (λ shown. shown ≡ map (shown_after (data_of cell.now) []) cell.now.outputs) }
{
    let values = StartValues::of(alloc, cell)?;
    show_start(
        alloc,
        cell,
        outputs,
        values.inputs.as_slice(),
        values.states.as_slice(),
    )
}

/// What a cell's simulator keeps beside what its outputs show, before any change.
#[derive(Drop)]
pub(crate) struct StartValues {
    pub inputs: Items<Trit>,
    pub times: Items<Times>,
    pub states: Items<Trit>,
    pub reports: Items<bool>,
    pub kept: KeptArcs,
}

impl StartValues {
    /// Those of a cell: all inputs and all states are unknown, there was no event, no check reports, and
    /// nothing is kept of the arcs.
    pub(crate) fn of(alloc: Global, cell: &Cell) -> Result<StartValues, AllocError>
        ensures inputs { IfOk result (λ start. start.inputs ≡ replicate (input_number cell.now.pins (length cell.now.pins))
            Unknown) }
        ensures times { IfOk result (λ start. start.times ≡ replicate (input_number cell.now.pins (length cell.now.pins))
            no_times) }
        ensures states { IfOk result (λ start. start.states ≡ replicate (length cell.now.groups) Unknown) }
        ensures reports { IfOk result (λ start. start.reports ≡ replicate (length cell.now.checks) false) }
        ensures kept { IfOk result (λ start. start.kept ≡ record {
          conditions = replicate (length cell.now.arcs) None;
          delays = replicate (length cell.now.arcs) None;
        }) }
    {
        let count = input_number(cell.pins.as_slice(), cell.pins.len());
        let inputs = repeated(alloc, Trit::Unknown, count)?;
        let times = repeated(alloc, Times::none(), count)?;
        let states = repeated(alloc, Trit::Unknown, cell.groups.len())?;
        let reports = repeated(alloc, false, cell.checks.len())?;
        let kept = KeptArcs::none(alloc, cell.arcs.len())?;
        Ok(StartValues {
            inputs,
            times,
            states,
            reports,
            kept,
        })
    }
}
