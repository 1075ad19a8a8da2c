//! Whether the nets of a part of a cell feed the instance of a module that stands for it.
ghost use Rattle.std.specs.Prelude.{◌≡◌, ◌<◌, ◌≤◌, length};
ghost use Rattle.bool_functions.specs.Tree.{name_bound};
ghost use Rattle.bool_functions.specs.Support.{support_of};
ghost use Rattle.cell_machine.specs.CellData.{data_of};
ghost use Rattle.module_terminals.specs.Feeding.{gating, feeds_condition, feeds_gating, feeds_group, feeds_output};

use crate::condition_wires::ConditionWire;
use crate::supports::{MOST_NAMES, support_of};
use crate::terminals::{
    drives_value, group_nets, nets_feeding, output_net, output_nets, pin_nets, same_nets,
    sequential_instance,
};
use bool_functions::Function;
use cell_machine::Cell;
use specify_blocks::{VModule, VNet};

/// Whether the nets of a group feed the instance that stands for it.
pub fn feeds_group(cell: &Cell, model: &VModule, group: usize) -> bool
    requires { group < length cell.now.groups }
    ensures { result ≡ feeds_group (data_of cell.now) model.now group }
{
    match sequential_instance(model, group) {
        Some(instance) => {
            let nets = group_nets(cell, group);
            same_nets(nets_feeding(instance), nets.as_slice())
        }
        None => false,
    }
}

/// Whether the nets of a condition feed the instance that drives its wire.
fn feeds_condition(cell: &Cell, model: &VModule, condition: &Function, wire: usize) -> bool
    requires bounded { name_bound condition.now ≤ 96 }
    requires few { length (support_of condition.now) ≤ 10 }
    ensures { result ≡ feeds_condition (data_of cell.now) model.now (record { condition = condition.now; wire = wire }) }
{
    let names = support_of(condition, MOST_NAMES);
    let nets = pin_nets(cell.pins.as_slice(), names.as_slice());
    drives_value(model, nets.as_slice(), VNet::Wire(wire))
}

/// Whether the nets of a condition that may be absent feed the instance that drives its wire.
pub fn feeds_gating(cell: &Cell, model: &VModule, of: ConditionWire<'_>) -> bool
    ensures { result ≡ feeds_gating (data_of cell.now) model.now (gating of.entry.condition.now of.entry.wire) }
{
    match (of.condition, of.wire) {
        (Some(condition), Some(wire)) => feeds_condition(cell, model, condition, wire),
        _ => true,
    }
}

/// Whether the nets of an output feed the instance that drives its port.
pub fn feeds_output(cell: &Cell, model: &VModule, output: usize) -> bool
    requires { output < length cell.now.outputs }
    ensures { result ≡ feeds_output (data_of cell.now) model.now output }
{
    let nets = output_nets(cell, model, output);
    drives_value(model, nets.as_slice(), output_net(cell, output))
}
