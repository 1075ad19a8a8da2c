//! The delay of an output's change: the least over the active paths.
ghost use Rattle.std.specs.Prelude.{◌≡◌, ◌<◌, true, length, drop};
ghost use Rattle.std.specs.List.{list_all};
ghost use Rattle.cell_machine.specs.Delay.{least_delay};
ghost use Rattle.model_traces.specs.PathDelays.{is_off, is_quiet, is_active, is_between, paths_between, path_at, delay_at};
ghost use Rattle.run_parts.specs.KeptDelays.{AreKept};
ghost use Rattle.run_parts.specs.LeastPath.{path_delay_of};
ghost use Rattle.module_runs.specs.OutputPaths.{output_paths};
ghost use Rattle.module_runs.specs.QuietPorts.{IsKnown};

use crate::module_values::{ModuleValues, net_value};
use cell_machine::lesser;
use run_parts::{KeptDelays, OutputChange, delay_place, input_number};
use specify_blocks::{Gate, VNet, VPath};
use trit_cubes::Trit;

/// Whether all `if` paths of two ports are 0.
#[derive(Clone, Copy)]
pub struct Quiet {
    /// The number of the port where the paths start.
    pub from: usize,
    /// The number of the port where they end.
    pub to: usize,
    /// Whether all are 0.
    pub holds: bool,
}

/// Whether a path is no `if` path or its net is 0.
fn is_off(values: &ModuleValues, gate: Gate) -> bool
    ensures { result ≡ is_off values.now.tables.model.now values.now.inputs.now values.now.states.now gate }
{
    match gate {
        Gate::Always => true,
        Gate::If(wire) => { net_value(values, VNet::Wire(wire)) == Trit::Zero }
        Gate::IfNone => true,
    }
}

/// Whether another path leaves an `ifnone` path active.
fn is_quiet(values: &ModuleValues, path: VPath, other: VPath) -> bool
    ensures { result ≡ is_quiet values.now.tables.model.now values.now.inputs.now values.now.states.now path other }
{
    let same_ports = path.from == other.from && path.to == other.to;
    if !same_ports {
        return true;
    }
    is_off(values, other.gate)
}

/// Whether all other paths leave an `ifnone` path active.
fn all_are_quiet(values: &ModuleValues, path: VPath) -> bool
    ensures { result ≡ list_all (is_quiet values.now.tables.model.now values.now.inputs.now values.now.states.now path)
        values.now.tables.model.now.paths }
{
    let paths = values.tables.paths_to(path.to);
    for i in 0..paths.len() {
        if !is_quiet(values, path, paths[i]) {
            return false;
        }
    }
    true
}

/// Whether an `ifnone` path is active. `quiet` holds the answer of the two ports for which it was found last.
fn is_left(values: &ModuleValues, path: VPath, quiet: &mut Option<Quiet>) -> bool
    requires known { IsKnown values.now.tables.model.now values.now.inputs.now values.now.states.now quiet.old }
    ensures left { result ≡ list_all (is_quiet values.now.tables.model.now values.now.inputs.now values.now.states.now path)
        values.now.tables.model.now.paths }
    ensures known { IsKnown values.now.tables.model.now values.now.inputs.now values.now.states.now quiet.new }
{
    if let Some(known) = *quiet {
        if known.from == path.from && known.to == path.to {
            return known.holds;
        }
    }
    let holds = all_are_quiet(values, path);
    *quiet = Some(Quiet {
        from: path.from,
        to: path.to,
        holds,
    });
    holds
}

/// Whether a path is active.
fn is_active(values: &ModuleValues, path: VPath, quiet: &mut Option<Quiet>) -> bool
    requires known { IsKnown values.now.tables.model.now values.now.inputs.now values.now.states.now quiet.old }
    ensures active { result ≡ is_active values.now.tables.model.now values.now.inputs.now values.now.states.now path path.gate }
    ensures known { IsKnown values.now.tables.model.now values.now.inputs.now values.now.states.now quiet.new }
{
    match path.gate {
        Gate::Always => true,
        Gate::If(wire) => { net_value(values, VNet::Wire(wire)) != Trit::Zero }
        Gate::IfNone => is_left(values, path, quiet),
    }
}

/// The delay that a path gives, there where it leads from the input to the output and is active.
fn path_delay(
    values: &ModuleValues,
    change: OutputChange,
    path: VPath,
    quiet: &mut Option<Quiet>,
) -> Option<u64>
    requires known { IsKnown values.now.tables.model.now values.now.inputs.now values.now.states.now quiet.old }
    ensures delay { result ≡ path_delay_of (is_between values.now.tables.model.now.ports change.input change.port)
        (path_at values.now.tables.model.now values.now.inputs.now values.now.states.now) change.from change.to path }
    ensures known { IsKnown values.now.tables.model.now values.now.inputs.now values.now.states.now quiet.new }
{
    let leads = input_number(&values.tables.ports(), path.from) == change.input
        && path.to == change.port;
    if !leads {
        return None;
    }
    if !is_active(values, path, quiet) {
        return None;
    }
    Some(change.delay(path.rise, path.fall))
}

/// The delay of a change of an output: the least over the active paths from the input to it, 0 where none is active.
fn found_delay(values: &ModuleValues, change: OutputChange) -> u64
    ensures { result ≡ least_delay change.from change.to
        (paths_between values.now.tables.model.now values.now.inputs.now values.now.states.now change.input change.port) }
{
    let paths = values.tables.paths_to(change.port);
    let mut best = None;
    let mut quiet = None;
    for i in 0..paths.len() {
        best = lesser(best, path_delay(values, change, paths[i], &mut quiet));
    }
    best.unwrap_or(0)
}

/// The same as it is kept, else found and kept.
fn least_delay(values: &ModuleValues, change: OutputChange, kept: &mut KeptDelays) -> u64
    requires kept { AreKept (output_paths values.now.tables.model.now values.now.inputs.now values.now.states.now) kept.old }
    ensures delay { result ≡ least_delay change.from change.to
        (paths_between values.now.tables.model.now values.now.inputs.now values.now.states.now change.input change.port) }
    ensures kept { AreKept (output_paths values.now.tables.model.now values.now.inputs.now values.now.states.now) kept.new }
{
    let places = values.tables.index.paths.places.as_slice();
    let place = delay_place(places, change.port, change.input);
    if let Some(delay) = kept.known(place, change.port, change) {
        return delay;
    }
    let delay = found_delay(values, change);
    kept.keep(place, change.port, change, delay);
    delay
}

/// The delay of an output, there where it changes.
pub(crate) fn delay_at(
    values: &ModuleValues,
    change: OutputChange,
    kept: &mut KeptDelays,
) -> Option<u64>
    requires kept { AreKept (output_paths values.now.tables.model.now values.now.inputs.now values.now.states.now) kept.old }
    ensures delay { result ≡ delay_at values.now.tables.model.now values.now.inputs.now values.now.states.now change.input
        change.port change.from change.to }
    ensures kept { AreKept (output_paths values.now.tables.model.now values.now.inputs.now values.now.states.now) kept.new }
{
    if change.from == change.to {
        None
    } else {
        Some(least_delay(values, change, kept))
    }
}
