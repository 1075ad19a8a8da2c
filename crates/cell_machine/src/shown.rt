//! What the outputs of a cell show after a change of an input.
ghost use Rattle.std.specs.Prelude.{◌≡◌, ◌<◌, length, map, slice_get, Some, IfOk};
ghost use Rattle.cell_machine.specs.declared.outputs.OutputPin.{OutputPin as OutputPinOf};
ghost use Rattle.cell_machine.specs.Each.{each};
ghost use Rattle.cell_machine.specs.CellData.{data_of};
ghost use Rattle.cell_machine.specs.CellTrace.{inputs_of, arc_names};
ghost use Rattle.cell_machine.specs.ArcPlaces.{arcs_from};
ghost use Rattle.cell_machine.specs.KeptArcs.{AreKeptArcs};
ghost use Rattle.cell_machine.specs.OutputTables.{AreOutputTables};
ghost use Rattle.cell_machine.specs.ShownOutputs.{shown_first, shown_step};

use crate::cells::Cell;
use crate::changes::Change;
use crate::delays::least_delay;
use crate::entries::entry;
use crate::kept_arcs::KeptArcs;
use crate::kept_conditions::InputArcs;
use crate::output_tables::output_value;
use sqlite_items::Items;
use std::alloc::{AllocError, Global};
use trit_cubes::Trit;

/// What an output shows: its value, and its delay in picoseconds where it changed at the last change.
#[derive(Clone, Copy)]
pub struct Shown {
    /// The value.
    pub value: Trit,
    /// The delay, there exactly where the output changed.
    pub delay: Option<u64>,
}

/// A change of an input as the outputs see it.
#[derive(Clone, Copy)]
pub struct ShownChange<'a> {
    /// For each output the values of its function at all points.
    pub outputs: &'a Items<Items<Trit>>,
    /// For each arc the pins that its condition names.
    pub names: &'a [Items<usize>],
    /// For each output the numbers of the arcs that lead to it from the changed input.
    pub places: &'a Items<Items<usize>>,
    /// The values of the inputs after it.
    pub inputs: &'a [Trit],
    /// The states after it.
    pub states: &'a [Trit],
    /// The change.
    pub change: Change,
}

/// What one output shows after a change, where it showed the value `was` before.
fn shown_step(cell: &Cell, seen: &ShownChange, i: usize, was: Trit, kept: &mut KeptArcs) -> Shown
    requires outputs { AreOutputTables (data_of cell.now) seen.now.outputs.now }
    requires names { seen.now.names.now ≡ arc_names (data_of cell.now) }
    requires pin { seen.now.change.pin < inputs_of (data_of cell.now) }
    requires places { seen.now.places.now ≡ arcs_from (data_of cell.now) seen.now.change.pin }
    requires inside { i < length cell.now.outputs }
    requires kept { AreKeptArcs (data_of cell.now) seen.now.inputs.now kept.old }
    ensures shown { (output : OutputPinOf) → slice_get cell.now.outputs i ≡ Some output
        → result ≡ shown_step cell.now.pins cell.now.groups cell.now.arcs seen.now.inputs.now seen.now.states.now seen.now.change
        output was }
    ensures kept { AreKeptArcs (data_of cell.now) seen.now.inputs.now kept.new }
{
    let value = output_value(cell, seen.outputs, i, seen.inputs, seen.states);
    if was == value {
        return Shown { value, delay: None };
    }
    let arcs = InputArcs {
        cell,
        names: seen.names,
        inputs: seen.inputs,
    };
    let places = entry(seen.places, i).as_slice();
    let delay = least_delay(&arcs, places, kept, was, value);
    Shown {
        value,
        delay: Some(delay),
    }
}

/// Takes what the outputs show over a change.
pub fn show_all(cell: &Cell, seen: &ShownChange, kept: &mut KeptArcs, shown: &mut Items<Shown>)
    requires outputs { AreOutputTables (data_of cell.now) seen.now.outputs.now }
    requires names { seen.now.names.now ≡ arc_names (data_of cell.now) }
    requires pin { seen.now.change.pin < inputs_of (data_of cell.now) }
    requires places { seen.now.places.now ≡ arcs_from (data_of cell.now) seen.now.change.pin }
    requires kept { AreKeptArcs (data_of cell.now) seen.now.inputs.now kept.old }
    requires one_each { length shown.old ≡ length cell.now.outputs }
    ensures stepped { shown.new ≡ each
        (λ o s. shown_step cell.now.pins cell.now.groups cell.now.arcs seen.now.inputs.now seen.now.states.now seen.now.change o
        s.value) cell.now.outputs shown.old }
    ensures len { length shown.new ≡ length shown.old }
    ensures kept { AreKeptArcs (data_of cell.now) seen.now.inputs.now kept.new }
{
    for i in 0..shown.len() {
        let was = shown.as_slice()[i].value;
        shown.set(i, shown_step(cell, seen, i, was, kept));
    }
}

/// What the outputs show at the start, where the inputs and the states have these values: no delays. `outputs` are the values of
/// their functions at all points.
pub fn show_start(
    alloc: Global,
    cell: &Cell,
    outputs: &Items<Items<Trit>>,
    inputs: &[Trit],
    states: &[Trit],
) -> Result<Items<Shown>, AllocError>
    requires { AreOutputTables (data_of cell.now) outputs.now }
    ensures { IfOk result (λ shown. shown ≡ map (shown_first cell.now.pins cell.now.groups inputs.now states.now)
        cell.now.outputs) }
{
    let mut shown = Items::new(alloc);
    for i in 0..cell.outputs.len() {
        let value = output_value(cell, outputs, i, inputs, states);
        shown.push(Shown { value, delay: None })?;
    }
    Ok(shown)
}
