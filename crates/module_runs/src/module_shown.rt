//! What the outputs of a module show after a change of an input.
ghost use Rattle.std.specs.Prelude.{◌≡◌, ◌<◌, ◌++◌, length, map, IsTrue, IfOk, OnOk};
ghost use Rattle.model_traces.specs.PortNumbers.{output_by, output_ports};
ghost use Rattle.run_parts.specs.KeptDelays.{AreKept};
ghost use Rattle.module_runs.specs.OutputPaths.{output_paths};
ghost use Rattle.module_runs.specs.KeptValues.{kept_values};
ghost use Rattle.module_runs.specs.ShownPorts.{shown_first, shown_step};

use crate::delays::delay_at;
use crate::module_tables::ModuleTables;
use crate::module_values::{ModuleValues, net_value};
use run_parts::{KeptDelays, OutputChange, ShownPort};
use specify_blocks::VNet;
use sqlite_items::Items;
use std::alloc::{AllocError, Global};
use trit_cubes::Trit;

/// What one output shows after a change of an input.
fn shown_step(
    values: &ModuleValues,
    input: usize,
    was: ShownPort,
    delays: &mut KeptDelays,
) -> ShownPort
    requires kept { AreKept (output_paths values.now.tables.model.now values.now.inputs.now values.now.states.now) delays.old }
    ensures shown { result ≡ shown_step values.now.tables.model.now values.now.inputs.now values.now.states.now input was }
    ensures kept { AreKept (output_paths values.now.tables.model.now values.now.inputs.now values.now.states.now) delays.new }
{
    let port = was.port;
    let value = net_value(values, VNet::Port(port));
    let change = OutputChange {
        input,
        port,
        from: was.value,
        to: value,
    };
    let delay = delay_at(values, change, delays);
    ShownPort { port, value, delay }
}

/// Takes what the outputs show over a change of an input. The values are those after it.
pub(crate) fn show_all(
    values: &ModuleValues,
    input: usize,
    shown: &mut Items<ShownPort>,
    delays: &mut KeptDelays,
)
    requires kept { AreKept (output_paths values.now.tables.model.now values.now.inputs.now values.now.states.now) delays.old }
    ensures stepped { shown.new ≡ map (shown_step values.now.tables.model.now values.now.inputs.now values.now.states.now input)
        shown.old }
    ensures len { length shown.new ≡ length shown.old }
    ensures kept { AreKept (output_paths values.now.tables.model.now values.now.inputs.now values.now.states.now) delays.new }
{
    for i in 0..shown.len() {
        let was = shown.as_slice()[i];
        let now = shown_step(values, input, was, delays);
        shown.set(i, now);
    }
}

/// Adds what a port shows at the start, where it is an output.
fn add_first(
    values: &ModuleValues,
    port: usize,
    is_input: bool,
    shown: &mut Items<ShownPort>,
) -> Result<(), AllocError>
    ensures { OnOk result (shown.new ≡ shown.old
        ++ map (shown_first values.now.tables.model.now values.now.inputs.now values.now.states.now) (output_by port is_input)) }
{
    if is_input {
        return Ok(());
    }
    let value = net_value(values, VNet::Port(port));
    shown.push(ShownPort {
        port,
        value,
        delay: None,
    })?;
    Ok(())
}

/// What the outputs show at the start, where the inputs and the states have these values: no delays.
fn show_start(alloc: Global, values: &ModuleValues) -> Result<Items<ShownPort>, AllocError>
    ensures { IfOk result (λ shown. shown ≡ map
        (shown_first values.now.tables.model.now values.now.inputs.now values.now.states.now)
        (output_ports values.now.tables.model.now.ports)) }
{
    let mut shown = Items::new(alloc);
    let ports = values.tables.model.ports.as_slice();
    for i in 0..ports.len() {
        let is_input = ports[i].input;
        add_first(values, i, is_input, &mut shown)?;
    }
    Ok(shown)
}

/// What the outputs show before any change, where the inputs and the states have these values and the instances drive these.
pub(crate) fn first_shown(
    alloc: Global,
    tables: &ModuleTables,
    inputs: &[Trit],
    states: &[Trit],
    kept: &[Trit],
) -> Result<Items<ShownPort>, AllocError>
    requires { kept.now ≡ kept_values tables.now.model.now inputs.now states.now }
    ensures { IfOk result (λ shown. shown ≡ map (shown_first tables.now.model.now inputs.now states.now)
        (output_ports tables.now.model.now.ports)) }
{
    let values = ModuleValues {
        tables: *tables,
        inputs,
        states,
        kept,
    };
    show_start(alloc, &values)
}
