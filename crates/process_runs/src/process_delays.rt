//! The delay of an output's change: the least over the path entries that hold.
ghost use Rattle.std.specs.Prelude.{◌≡◌, ◌<◌, Some, length, drop, slice_get};
ghost use Rattle.run_parts.specs.KeptDelays.{AreKept};
ghost use Rattle.run_parts.specs.LeastPath.{path_delay_of, least_delay};
ghost use Rattle.model_traces.specs.GatedPaths.{all_zero, gate_holds, path_at, begins_at, paths_from};
ghost use Rattle.process_runs.specs.NumberedPaths.{numbered_paths};

use crate::entity_values::{EntityValues, condition_value};
use cell_machine::lesser;
use run_parts::{KeptDelays, OutputChange, delay_place, input_number};
use trit_cubes::Trit;
use vital_models::{HGate, HPath, VOutput};

/// Whether all these conditions are 0.
fn all_zero(values: &EntityValues, conditions: &[usize]) -> bool
    ensures { result ≡ all_zero values.now.tables.model.now values.now.inputs.now conditions.now }
{
    for i in 0..conditions.len() {
        if condition_value(values, conditions[i]) != Trit::Zero {
            return false;
        }
    }
    true
}

/// Whether a path's condition holds.
fn gate_holds(values: &EntityValues, gate: &HGate) -> bool
    ensures { result ≡ gate_holds values.now.tables.model.now values.now.inputs.now gate.now }
{
    match gate {
        HGate::Always => true,
        HGate::NotZero(i) => condition_value(values, *i) != Trit::Zero,
        HGate::AllZero(conditions) => all_zero(values, conditions.as_slice()),
    }
}

/// The delay that a path gives, there where it begins at the input and its condition holds.
fn path_delay(values: &EntityValues, change: OutputChange, path: &HPath) -> Option<u64>
    ensures { result ≡ path_delay_of (begins_at values.now.tables.model.now.ports change.input)
        (path_at values.now.tables.model.now values.now.inputs.now) change.from change.to path.now }
{
    if input_number(&values.tables.ports(), path.from) != change.input {
        return None;
    }
    if !gate_holds(values, &path.gate) {
        return None;
    }
    Some(change.delay(path.rise, path.fall))
}

/// The least delay over the paths of an output that hold, 0 where none does.
fn found_delay(values: &EntityValues, change: OutputChange, output: &VOutput) -> u64
    ensures { result ≡ least_delay change.from change.to
        (paths_from values.now.tables.model.now values.now.inputs.now change.input output.now) }
{
    let paths = output.paths.as_slice();
    let mut best = None;
    for i in 0..paths.len() {
        best = lesser(best, path_delay(values, change, &paths[i]));
    }
    best.unwrap_or(0)
}

/// The same of the output with this number, as it is kept, else found and kept.
pub(crate) fn least_delay(
    values: &EntityValues,
    number: usize,
    change: OutputChange,
    output: &VOutput,
    kept: &mut KeptDelays,
) -> u64
    requires is { slice_get values.now.tables.model.now.outputs number ≡ Some output.now }
    requires kept { AreKept (numbered_paths values.now.tables.model.now values.now.inputs.now) kept.old }
    ensures delay { result ≡ least_delay change.from change.to
        (paths_from values.now.tables.model.now values.now.inputs.now change.input output.now) }
    ensures kept { AreKept (numbered_paths values.now.tables.model.now values.now.inputs.now) kept.new }
{
    let places = values.tables.index.places.as_slice();
    let place = delay_place(places, number, change.input);
    if let Some(delay) = kept.known(place, number, change) {
        return delay;
    }
    let delay = found_delay(values, change, output);
    kept.keep(place, number, change, delay);
    delay
}
